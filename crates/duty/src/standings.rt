// How the rules of a book stand after the lines so far.
ghost use Rattle.std.specs.Prelude.{◌≡◌, ◌≤◌, vec_len, vec_capacity};
ghost use Rattle.book.specs.Trees.{pure_rules};
ghost use Rattle.duty.specs.Sheet.{Fits};
ghost use Rattle.duty.specs.Kinds.{CoversAll, CoversEach};

use crate::findings::Findings;
use crate::kinds::Kinds;
use book::book::Book;

mod moves;

// The rules of a book, the kinds of line that concern some rule and each rule, and what is found of the rules. What
// goes with each rule stands in a list of its own: the book owns the rules, the kinds never change, and the verdicts
// are lent as one slice.
#[derive(Drop)]
struct State {
    book: Book,
    kinds: Kinds,
    each: Vec<Kinds>,
    findings: Findings,
    ghost covered: { ∥ CoversAll kinds (pure_rules book.rules.items) ∥₁ },
    ghost each_covered: { ∥ CoversEach each.items (pure_rules book.rules.items) ∥₁ },
    ghost judged: { vec_len findings.verdicts ≡ vec_len book.rules },
    ghost room: { vec_len book.rules ≤ vec_capacity findings.verdicts },
    ghost fits: { Fits findings.sheet.entries.items },
}

// The state after the lines so far, with room for the findings after the next one: nothing is allocated once a
// standing is open.
#[derive(Drop)]
pub struct Standing {
    state: State,
    next: Findings,
    ghost room: { vec_len state.book.rules ≤ vec_capacity next.verdicts },
}

// With this line the sheet would need more than its 256 places.
#[derive(Clone, Copy, Debug, PartialEq, Eq)]
pub struct SheetFull;
