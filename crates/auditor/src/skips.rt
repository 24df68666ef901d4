// Skipping an item of a feed.
ghost use Rattle.std.specs.Prelude.{◌≡◌};
ghost use Rattle.feed.specs.Waiting.{later};
ghost use Rattle.auditor.specs.Account.{skipping};

use crate::answers::Refusal;
use feed::feeds::Feed;

// Drops the first waiting item, or refuses where nothing waits. (`then_some` and `ok_or` on a value that says nothing would be
// no plainer than this `if`.)
pub fn skip<F: Feed>(feed: &mut F) -> Result<(), Refusal>
    ensures answer { result ≡ skipping (F.waiting feed.old) }
    ensures after { F.waiting feed.new ≡ later (F.waiting feed.old) }
{
    if feed.drop_first() {
        Ok(())
    } else {
        Err(Refusal::NothingWaits)
    }
}
