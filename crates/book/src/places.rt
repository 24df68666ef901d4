// Where a node of a rule may begin.
ghost use Rattle.std.specs.Prelude.{◌≡◌, ◌+◌, ◌<◌, ◌≤◌, OnOk};
ghost use Rattle.std.specs.Result.{result_err};
ghost use Rattle.book.specs.Faults.{role_fault, HasRoom};
ghost use Rattle.book.specs.Grammar.{starts};
ghost use Rattle.book.specs.Sets.{no_letters};

use crate::refusals::Reason;
use crate::sets::Letters;

// The most rules in a book, nodes in a book, and nodes inside one another.
const RULES: usize = 16;

const NODES: usize = 64;

const DEPTH: usize = 8;

// How many nodes of a book have begun. It stands beside a place, not in it: it counts on over the whole text, while a place is put back after each node.
#[derive(Drop)]
pub(crate) struct Nodes {
    pub(crate) begun: usize,
    ghost few: { begun ≤ 64 },
}

// Where a rule stands: in which rule of the book, inside how many nodes, and which letters are bound there.
#[derive(Clone, Copy)]
pub(crate) struct Place {
    pub(crate) rule: usize,
    pub(crate) around: usize,
    pub(crate) bound: Letters,
    ghost shallow: { around ≤ 8 },
}

impl Place {
    // Outermost in a rule of the book.
    pub(crate) fn top(rule: usize) -> Place
        ensures rule { result.rule ≡ rule }
        ensures around { result.around ≡ 0 }
        ensures bound { result.bound ≡ no_letters }
    {
        Place {
            rule,
            around: 0,
            bound: Letters::none(),
        }
    }

    // Whether a node may begin here, after these nodes.
    pub(crate) fn check_node(self, nodes: &Nodes) -> Result<(), Reason>
        ensures fault { result_err result ≡ role_fault (starts self.rule (nodes.now.begun + 1) (self.around + 1)) }
        ensures room { OnOk result (HasRoom nodes.now.begun self.around) }
    {
        if self.rule > RULES || nodes.begun >= NODES || self.around >= DEPTH {
            return Err(Reason::PastLimit);
        }
        Ok(())
    }
}

// While it stands, the place is inside a node and other letters are bound; at its end the former place is again.
pub(crate) struct Nested<'s> {
    pub(crate) place: &'s mut Place,
    pub(crate) former: Place,
}

impl Drop for Nested<'_> {
    fn drop(self)
        ensures { self.exit.0.now ≡ self.entry.former }
    {
        *self.place = self.former;
        let Nested {
            place: _,
            former: _,
        } = self;
    }
}
