// Books of duty rules: what they are written as, and the reader that accepts a text exactly when it is one.
#![tactic(auto)]

pub mod book;
pub mod exact;
mod nodes;
mod openings;
mod parts;
mod patterns;
mod places;
mod reader;
pub mod refusals;
pub mod rules;
pub mod sets;
pub mod terminals;
pub mod terms;
pub mod whole;
mod words;
