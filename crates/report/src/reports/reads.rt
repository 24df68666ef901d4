// Reading a report.
ghost use Rattle.std.specs.Prelude.{◌≡◌, length};

use crate::reports::Report;
use feed::faults::Fault;

impl Report {
    // How many lines are sound, up to the largest count.
    pub fn sound(&self) -> u64
        ensures { result ≡ self.now.sound }
    {
        self.sound
    }

    // The time of the first sound line, if there is one.
    pub fn first_time(&self) -> Option<u32>
        ensures { result ≡ self.now.first_time }
    {
        self.first_time
    }

    // The time of the last sound line, if there is one.
    pub fn last_time(&self) -> Option<u32>
        ensures { result ≡ self.now.last_time }
    {
        self.last_time
    }

    // The faults, in the order in which they came.
    pub fn faults(&self) -> &[Fault]
        ensures items { result.now ≡ self.now.faults.items }
        ensures len { length result.now ≡ length self.now.faults.items }
    {
        self.faults.as_slice()
    }
}
