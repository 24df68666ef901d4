// Feeds over the caller's bytes or words.
ghost use Rattle.std.specs.Prelude.{◌≡◌, true, [], length, Some, MatchBool};
ghost use Rattle.feed.specs.Inputs.{Pieces, cut, piece_count, item_of, items_of};
ghost use Rattle.feed.specs.Waiting.{first, later, any};
ghost use Rattle.feed.specs.Opened.{Opened, waiting_in};

use crate::faults::{Fault, FaultKind, Item};
use crate::feeds::Feed;
use crate::inputs::{Encoding, OpenRefusal, check_station};
use crate::lines::Line;

// The input that is left, whose items belong to the station and are numbered from `next`.
#[derive(Drop)]
pub struct InputFeed<'a, E: Encoding> {
    rest: &'a [E::Unit],
    station: u16,
    next: u64,
}

// What a piece reads as, as the item of this number at this station.
fn item_of(station: u16, item: u64, read: Result<Line, FaultKind>) -> Item
    ensures { result ≡ item_of station item read }
{
    match read {
        Ok(line) => Item::Sound(line),
        Err(kind) => Item::Faulty(Fault {
            kind,
            station,
            item,
        }),
    }
}

impl<'a, E: Encoding> InputFeed<'a, E> {
    // A feed over the input, with no limit on it.
    pub(crate) fn begin(input: &'a [E::Unit], station: u16, first: u64) -> InputFeed<'a, E>
        ensures items { waiting_in E.reads E.width result ≡ items_of E.reads E.width station first input.now }
        ensures pieces { Pieces E.width input.now (cut E.width input.now) }
        ensures count { length (waiting_in E.reads E.width result) ≡ piece_count E.width (length input.now) }
    {
        InputFeed {
            rest: input,
            station,
            next: first,
        }
    }

    // Whether nothing waits.
    #[tactic(auto, using(crate::proofs::Cuts::dry))]
    pub(crate) fn is_dry(&self) -> bool
        ensures { MatchBool result (waiting_in E.reads E.width self.now ≡ []) (any (waiting_in E.reads E.width self.now) ≡ true) }
    {
        self.rest.is_empty()
    }

    // The item at the front of an input that is not empty.
    fn front(&self) -> Item
        requires { any (waiting_in E.reads E.width self.now) ≡ true }
        ensures { Some result ≡ first (waiting_in E.reads E.width self.now) }
    {
        let n = E::width().min(self.rest.len());
        let read = E::read(&self.rest[0..n]);
        item_of(self.station, self.next, read)
    }

    // The feed behind its first item.
    fn behind(&self) -> InputFeed<'a, E>
        requires { any (waiting_in E.reads E.width self.now) ≡ true }
        ensures { waiting_in E.reads E.width result ≡ later (waiting_in E.reads E.width self.now) }
    {
        let n = E::width().min(self.rest.len());
        InputFeed {
            rest: &self.rest[n..],
            station: self.station,
            next: self.next.saturating_add(1),
        }
    }

    // A feed over the input, whose items belong to the station and are numbered from `first`.
    pub fn open(
        input: &'a [E::Unit],
        station: u16,
        first: u64,
    ) -> Result<InputFeed<'a, E>, OpenRefusal>
        ensures { Opened E.reads E.width E.most station first input.now result }
    {
        check_station(station)?;
        if !(1..=9_990_000).contains(&first) {
            return Err(OpenRefusal::FirstItem);
        }
        if input.len() > E::most() {
            return Err(OpenRefusal::InputLength);
        }
        Ok(InputFeed::begin(input, station, first))
    }
}

impl<E: Encoding> Feed for InputFeed<'_, E> {
    ghost waiting = { λ s. waiting_in E.reads E.width s };

    fn look(&mut self) -> Option<Item> {
        if self.is_dry() {
            return None;
        }
        Some(self.front())
    }

    fn drop_first(&mut self) -> bool {
        if self.is_dry() {
            return false;
        }
        *self = self.behind();
        true
    }
}
