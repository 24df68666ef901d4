// The two pages of an auditor, written into a caller's bytes.
#![tactic(auto)]

mod columns;
pub mod laws;
mod lengths;
mod rows;
pub mod sheets;
pub mod verdicts;
