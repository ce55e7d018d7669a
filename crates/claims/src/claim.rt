// What a proof is to show.

// No timetable that keeps the hard constraints costs so much or less; or there is none, whatever it costs (an Option
// would be no plainer: None does not say so).
#[derive(Clone, Copy)]
pub enum Claim {
    Bound(u64),
    AnyCost,
}
