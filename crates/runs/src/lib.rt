// Runs of calls on two auditors, and the law over them.
#![tactic(auto)]

pub mod calls;
pub mod counts;
pub mod observers;
pub mod pair;
pub mod pairs;
mod posts;
pub mod racks;
mod turns;
