// A recording of any size and any encoding, as a feed that goes through successive feeds over it.
ghost use Rattle.std.specs.Prelude.{◌≡◌, ◌*◌, ◌/◌};
ghost use Rattle.feed.specs.Inputs.{items_of};
ghost use Rattle.feed.specs.Recorded.{waiting_of, RecordingOpened};

use crate::cursors::InputFeed;
use crate::faults::Item;
use crate::feeds::Feed;
use crate::inputs::{Encoding, Fitting, OpenRefusal, check_station};

// The feed that is drawn on now, and the input behind it, whose items are numbered from `next`.
#[derive(Drop)]
pub struct Recording<'a, E: Fitting> {
    current: InputFeed<'a, E>,
    after: &'a [E::Unit],
    station: u16,
    next: u64,
}

// The units of one feed: as many whole items as its limit lets in.
fn stretch<E: Fitting>() -> usize
    ensures { result ≡ E.most / E.width * E.width }
{
    let width = E::width();
    E::most() / width * width
}

impl<'a, E: Fitting> Recording<'a, E> {
    // Begins the next feed.
    fn refill(&mut self)
        ensures { waiting_of E.reads E.width self.new ≡ items_of E.reads E.width self.old.station self.old.next self.old.after.now }
    {
        let n = self.after.len().min(stretch::<E>());
        let (input, after) = self.after.split_at(n);
        self.current = InputFeed::begin(input, self.station, self.next);
        self.after = after;
        self.next = self.next.saturating_add((n / E::width()) as u64);
    }

    // A feed over the whole input, whose items belong to the station and are numbered from 1.
    pub fn open(input: &'a [E::Unit], station: u16) -> Result<Recording<'a, E>, OpenRefusal>
        ensures { RecordingOpened E.reads E.width station input.now result }
    {
        check_station(station)?;
        let mut recording = Recording {
            current: InputFeed::begin(&[], station, 1),
            after: input,
            station,
            next: 1,
        };
        recording.refill();
        Ok(recording)
    }
}

impl<E: Fitting> Feed for Recording<'_, E> {
    ghost waiting = { λ s. waiting_of E.reads E.width s };

    fn look(&mut self) -> Option<Item> {
        self.current.look()
    }

    fn drop_first(&mut self) -> bool {
        if !self.current.drop_first() {
            return false;
        }
        if self.current.is_dry() {
            self.refill();
        }
        true
    }
}
