// A report on all that waits in a feed.
ghost use Rattle.report.specs.Surveyed.{Surveyed};

use crate::reports::Report;
use feed::feeds::Feed;
use std::alloc::{AllocError, Global};

// Drains the feed into a report, or stops where there is no memory for a fault.
pub fn survey<F: Feed>(heap: Global, feed: &mut F) -> Result<Report, AllocError>
    ensures { Surveyed (F.waiting feed.old) (F.waiting feed.new) result }
{
    let mut report = Report::new(heap);
    while let Some(item) = feed.look() {
        report.note(item)?;
        let _ = feed.drop_first();
    }
    Ok(report)
}
