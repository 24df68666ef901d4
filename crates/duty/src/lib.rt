// What a duty rule says of a log, and how what is open of it steps by one line.
#![tactic(auto)]

mod drafting;
mod drafts;
pub mod entries;
mod findings;
mod groups;
mod judging;
mod kinds;
pub mod laws;
mod matching;
mod openings;
mod outcomes;
mod places;
pub mod standings;
mod stepping;
mod steps;
pub mod verdicts;
