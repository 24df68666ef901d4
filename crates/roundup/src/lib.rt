// Kinds of results that can be joined, and one round-up over them all.
#![tactic(auto)]

mod counts;
pub mod joining;
pub mod kinds;
pub mod rounding;
pub mod tallies;
