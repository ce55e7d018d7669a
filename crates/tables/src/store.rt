// Stores for the tables of an instance, all 0. The contracts give only the lengths, which lending the arrays needs.
// A function for each store, and not one over a length: the lengths of a table's rows are said here alone.
ghost use Rattle.std.specs.Prelude.{◌≡◌, ◌*◌, length};

// The durations of 1,024 events.
pub fn durations() -> [u8; 1024]
    ensures { 1024 ≡ length result }
{
    [0; 1024]
}

// Rows for the resources of 1,024 events.
pub fn resource_rows() -> [u8; 129024]
    ensures { 129024 ≡ length result }
{
    [0; 129024]
}

// Rows for 1,024 groups, 126 bytes each.
pub fn group_rows() -> [u8; 129024]
    ensures { 1024 * 126 ≡ length result }
{
    [0; 129024]
}

// Rows for 1,024 groups and 1,024 windows of a calendar.
pub fn window_rows() -> [u8; 258048]
    ensures { 2048 * 126 ≡ length result }
{
    [0; 258048]
}

// A constraint's list of up to 1,024 events or groups, with room for as many windows of a calendar (document 02).
pub fn list() -> [u16; 2048]
    ensures { 2048 ≡ length result }
{
    [0; 2048]
}
