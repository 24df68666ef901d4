// The report on a list of items.
use feed::faults::Fault;

// How many lines are sound, the times of the first and the last of them, and every fault in order.
#[derive(Drop)]
pub struct Report {
    sound: u64,
    first_time: Option<u32>,
    last_time: Option<u32>,
    faults: Vec<Fault>,
}

mod notes;
mod reads;
