// The tokens of a book text: its longest stretches, each with its place.
#![tactic(auto)]

pub mod cursor;
pub mod source;
pub mod token;
