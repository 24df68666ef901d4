// The draft of the next sheet.
ghost use Rattle.std.specs.Prelude.{◌≤◌, vec_len, vec_capacity};

use crate::entries::Entry;

// How many entries the sheet has room for.
pub(crate) const PLACES: usize = 256;

// A sheet, or the draft of the next one. One entry more than the sheet has places stands for all that do not fit. The
// room is reserved once, so that writing never asks for memory.
#[derive(Drop)]
pub(crate) struct Draft {
    pub entries: Vec<Entry>,
    ghost room: { 257 ≤ vec_capacity entries },
    ghost held: { vec_len entries ≤ 257 },
}
