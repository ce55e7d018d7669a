// An id to delete is passed, with the row that was found for it. specs/ says what comes next.
#![tactic(auto)]

pub mod ids;
