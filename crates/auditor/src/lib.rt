// The held auditor: its calls, and what each answers, writes and leaves.
#![tactic(auto)]

pub mod answers;
pub mod auditors;
pub mod laws;
pub mod skips;
