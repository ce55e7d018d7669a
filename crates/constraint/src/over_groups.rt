// A resource over a list of groups: a cluster's fields and an idle limit's.

#[derive(Clone, Copy)]
pub struct OverGroups {
    pub resource: u32,
    pub groups: u32,
    pub lo: u32,
    pub hi: u32,
}
