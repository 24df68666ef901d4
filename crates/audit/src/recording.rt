// `audit recording LOG [LOG]`: a report on a recording, or on two joined.
use crate::files::bytes_of;
use crate::{Status, misused};
use anyhow::anyhow;
use feed::feeds::Feed;
use feed::inputs::{Encoding, Fitting, Text};
use feed::joins::Joined;
use feed::recordings::Recording;
use report::rows::{fault_row, summary};
use report::surveys::survey;

// A recording as a feed, and how many whole items its input has.
#[derive(Drop)]
pub struct Log<F> {
    pub feed: F,
    pub items: usize,
}

// The recording, in either encoding, as a feed of the station.
pub fn opened<E: Fitting>(
    input: &[E::Unit],
    station: u16,
) -> anyhow::Result<Log<Recording<'_, E>>> {
    let feed = Recording::<E>::open(input, station).map_err(|e| anyhow!(
        "refused {}: a station is numbered 1 to 9,999",
        e.number()
    ))?;
    let items = input.len().checked_div(E::width()).unwrap_or(0);
    Ok(Log { feed, items })
}

// Prints the report on all that waits in a feed.
fn print_report<F: Feed>(rt: &HostRuntime, feed: &mut F) -> anyhow::Result<Status> {
    let heap = rt.alloc();
    let report = survey(heap, feed)?;
    rt.print(summary(heap, &report)?)?;
    for fault in report.faults() {
        rt.print(fault_row(heap, *fault)?)?;
    }
    Ok(Status::Success)
}

// The report on one recording at station 1, or on two, at stations 1 and 2, joined.
pub fn report_on(rt: &HostRuntime, logs: &[String]) -> anyhow::Result<Status> {
    match logs {
        [log] => {
            let text = bytes_of(rt, log.as_str())?;
            let mut log = opened::<Text>(text.as_slice(), 1)?;
            print_report(rt, &mut log.feed)
        }
        [left, right] => {
            let left_text = bytes_of(rt, left.as_str())?;
            let right_text = bytes_of(rt, right.as_str())?;
            let left = opened::<Text>(left_text.as_slice(), 1)?;
            let right = opened::<Text>(right_text.as_slice(), 2)?;
            print_report(rt, &mut Joined::new(left.feed, right.feed))
        }
        _ => misused(rt),
    }
}
