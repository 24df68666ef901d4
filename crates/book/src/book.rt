// Books. Every book that exists keeps the grammar, the limits and the scoping: it is what some text was accepted as.
ghost use Rattle.std.specs.Prelude.{◌≡◌, [], length, vec_len};
ghost use Rattle.book.specs.Kept.{Kept, Written};
ghost use Rattle.book.specs.Trees.{pure_rules};
ghost use Rattle.book.specs.Sizes.{WithinLimits};

use crate::rules::Rule;
use std::alloc::Global;

#[derive(Drop)]
pub struct Book {
    rules: Vec<Rule>,
    ghost kept: { Kept rules.items },
    ghost written: { Written rules.items },
}

impl Book {
    // The book with no rule.
    pub fn empty(heap: Global) -> Book
        ensures { result.rules.items ≡ [] }
    {
        let rules = Vec::new(heap);
        Book { rules }
    }

    // The book of these rules.
    pub(crate) fn of(rules: Vec<Rule>) -> Book
        requires kept { Kept rules.items }
        requires written { Written rules.items }
        ensures { result.rules ≡ rules }
    {
        Book { rules }
    }

    // The rules, in the order in which they were written; they keep the limits of a book.
    pub fn rules(&self) -> &[Rule]
        ensures items { result.now ≡ self.now.rules.items }
        ensures len { length result.now ≡ vec_len self.now.rules }
        ensures within { WithinLimits (pure_rules result.now) }
    {
        self.rules.as_slice()
    }
}
