// Log lines, their two encodings, and feeds: anything that means a list of waiting items.
#![tactic(auto)]

pub mod cursors;
pub mod faults;
pub mod feeds;
pub mod fields;
pub mod inputs;
pub mod joins;
pub mod lines;
mod makes;
pub mod packed;
pub mod recordings;
pub mod text;
