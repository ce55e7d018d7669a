// The instance file: its tables filled, its constraints checked one by one, refusals 1 to 6, 19 and 22 in file order.
#![tactic(auto)]

mod answer;
mod reader;
mod walk;

pub use answer::read_instance;
pub use reader::read;
