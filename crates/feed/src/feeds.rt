// Feeds: anything that means a list of waiting items.
ghost use Rattle.std.specs.Prelude.{◌≡◌, List};
ghost use Rattle.feed.specs.Waiting.{first, later, any};
ghost use Rattle.feed.specs.declared.faults.Item.{Item};

use crate::faults::Item;

// A make of feed says by `waiting` which items wait in it, and shows that look and drop keep to that.
pub trait Feed {
    ghost waiting: { Self → List Item };

    // The first item, or none exactly when nothing waits; the list stays.
    fn look(&mut self) -> Option<Item>
        ensures answer { result ≡ first (waiting self.old) }
        ensures stays { waiting self.new ≡ waiting self.old };

    // Removes the first item and answers yes, or answers no where nothing waits.
    fn drop_first(&mut self) -> bool
        ensures answer { result ≡ any (waiting self.old) }
        ensures after { waiting self.new ≡ later (waiting self.old) };
}
