// The entries of the open sheet.

// What the letters A to H are bound to.
pub type Letters = [Option<u32>; 8];

// An open entry: the node of its rule, numbered from 1 as the nodes begin; how deep it stands below the
// entries above it; whether it is an `each` whose end has come; and the letters under which its node runs.
#[derive(Clone, Copy)]
pub struct Entry {
    pub letters: Letters,
    pub node: u8,
    pub level: u8,
    pub mark: bool,
}
