// The entries of a rule: one, and the deeper ones that follow.
ghost use Rattle.std.specs.Prelude.{◌≡◌, ◌<◌, ◌≤◌, length, take, drop};
ghost use Rattle.duty.specs.Groups.{group_size, head};

use crate::entries::Entry;

// The entries of a rule that has some.
#[derive(Clone, Copy)]
pub(crate) struct Group<'a> {
    pub entries: &'a [Entry],
    ghost some: { 0 < length entries.now },
}

impl<'a> Group<'a> {
    pub(crate) fn head(self) -> &'a Entry
        ensures { result.now ≡ head self.entry.entries.now }
    {
        &self.entries[0]
    }

    // The deeper entries, after the head.
    pub(crate) fn below(self) -> &'a [Entry]
        ensures { result.now ≡ drop 1 self.entry.entries.now }
    {
        &self.entries[1..]
    }
}

// How many entries the group at the front has: its head, and the deeper ones that follow.
fn group_size(entries: &[Entry]) -> usize
    ensures within { result ≤ length entries.now }
    ensures size { result ≡ group_size entries.now }
{
    let Some((head, rest)) = entries.split_first() else {
        return 0;
    };
    let level = head.level;
    1 + rest.iter().take_while(|entry| entry.level > level).count()
}

// The group at the front, and the entries after it.
pub(crate) fn split_group(entries: &[Entry]) -> (&[Entry], &[Entry])
    ensures group { result.0.now ≡ take (group_size entries.now) entries.now }
    ensures rest { result.1.now ≡ drop (group_size entries.now) entries.now }
{
    entries.split_at(group_size(entries))
}
