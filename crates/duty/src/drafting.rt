// Writing into a draft.
ghost use Rattle.std.specs.Prelude.{◌≡◌, [], ◌∷◌, IfOk, vec_len};
ghost use Rattle.duty.specs.Sheet.{entry};
ghost use Rattle.duty.specs.Drafts.{Drafted, Adds, Cuts};

use crate::drafts::{Draft, PLACES};
use crate::entries::{Entry, Letters};
use crate::places::Place;
use std::alloc::{AllocError, Global};

impl Draft {
    pub(crate) fn new(heap: Global) -> Result<Draft, AllocError>
        ensures { IfOk result (λ d. Drafted d []) }
    {
        let entries = Vec::with_capacity(heap, PLACES + 1)?;
        Ok(Draft { entries })
    }

    // How many entries have been written, up to 257.
    pub(crate) fn count(&self) -> usize
        ensures { result ≡ vec_len self.now.entries }
    {
        self.entries.len()
    }

    // One more entry.
    pub(crate) fn push(&mut self, entry: Entry)
        ensures { Adds self.old self.new (entry ∷ []) }
    {
        if self.entries.len() <= PLACES {
            self.entries.push_reserved(entry);
        }
    }

    // Entries that stay as they are.
    pub(crate) fn extend(&mut self, entries: &[Entry])
        ensures { Adds self.old self.new entries.now }
    {
        for entry in entries {
            self.push(*entry);
        }
    }

    // An entry of the rule at this place.
    pub(crate) fn write(&mut self, place: Place, mark: bool, letters: &Letters)
        ensures { Adds self.old self.new (entry place.node place.level mark letters.now ∷ []) }
    {
        self.push(Entry {
            letters: *letters,
            node: place.node,
            level: place.level,
            mark,
        });
    }

    // Back to an earlier count.
    pub(crate) fn cut(&mut self, count: usize)
        ensures { Cuts count self.old self.new }
    {
        self.entries.truncate(count);
    }

    pub(crate) fn clear(&mut self)
        ensures { Drafted self.new [] }
    {
        self.entries.clear();
    }
}
