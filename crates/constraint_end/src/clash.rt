// Kind 1: the list of a time has each event that uses the resource.
ghost use Rattle.std.specs.Prelude.{◌≡◌, ◌<◌, length, get_or};

// loads[r] is how many events use resource r.
pub fn length_of_clash(resource: u32, loads: &[u32]) -> u32
    requires { resource < length loads.now }
    ensures { result ≡ get_or loads.now resource 0 }
{
    let r = resource as usize;
    loads[r]
}
