// What a recorder engineer is told of a recording.
#![tactic(auto)]

pub mod reports;
pub mod rows;
pub mod surveys;
