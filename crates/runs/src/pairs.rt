// Two auditors on one book: the call whose contract is the law over runs.
ghost use Rattle.std.specs.Prelude.{◌≡◌, []};
ghost use Rattle.auditor.specs.Holds.{Holds};
ghost use Rattle.auditor.specs.Opening.{OnText};
ghost use Rattle.runs.specs.Law.{Ends, Law};

use crate::calls::Turn;
use crate::observers::Observer;
use crate::pair::Pair;
use crate::posts::Post;
use crate::racks::Feeds;
use crate::turns::make_turns;
use auditor::auditors::Auditor;
use book::refusals::Refusal;
use std::alloc::Global;

// An auditor opened on the book that the text is.
fn opened(heap: Global, text: &[u8]) -> Result<Auditor, Refusal>
    ensures { OnText (λ rs a. Holds rs [] a) (Unit {0}) text.now result }
{
    let mut auditor = Auditor::new(heap)?;
    auditor.open(heap, text)?;
    Ok(auditor)
}

// Opens two auditors on the book that the text is, and makes the turns in their order, each at the auditor and the
// feeds of its side: the first auditor draws on `left`, the second on `right`. Or it refuses the text, or finds no memory
// to open an auditor, and nothing changes.
pub fn audit_both<F: Feeds, G: Feeds, O: Observer>(
    heap: Global,
    text: &[u8],
    left: &mut F,
    right: &mut G,
    turns: &mut [Turn],
    observer: &mut O,
) -> Result<Pair, Refusal>
    ensures { OnText
        (Law (record {
          left = F.lists left.old;
          left' = F.lists left.new;
          right = G.lists right.old;
          right' = G.lists right.new;
          turns = turns.old;
          turns' = turns.new;
          saw = O.saw observer.old;
          saw' = O.saw observer.new;
        }))
        ((left.new ≡ left.old) × (right.new ≡ right.old) × (turns.new ≡ turns.old) × (observer.new ≡ observer.old))
        text.now result }
{
    let first = opened(heap, text)?;
    let second = opened(heap, text)?;
    let mut first = Post {
        auditor: first,
        feeds: left,
    };
    let mut second = Post {
        auditor: second,
        feeds: right,
    };
    make_turns(&mut first, &mut second, turns, observer);
    // (With `first.auditor` alone the search finds no proof that the feeds, held by `&mut`, are the caller's again.)
    let Post {
        auditor: first,
        feeds: _left,
    } = first;
    let Post {
        auditor: second,
        feeds: _right,
    } = second;
    Ok(Pair { first, second })
}
