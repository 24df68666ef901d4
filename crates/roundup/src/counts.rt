// Counts.
ghost use Rattle.std.specs.Prelude.{◌≡◌, ◌≤◌};
ghost use Rattle.roundup.specs.Counts.{most};

// A number of 999,999 at most.
#[derive(Clone, Copy)]
pub struct Count {
    number: u32,
    ghost within: { number ≤ most },
}

impl Count {
    ghost use Rattle.roundup.specs.Tallies.{count_of, count_sum};

    // The count with this number, read as 999,999 at most.
    pub fn new(number: u32) -> Count
        ensures { result ≡ count_of number }
    {
        Count {
            number: number.min(999_999),
        }
    }

    // The two counts added, up to 999,999.
    pub fn plus(self, other: Count) -> Count
        ensures { result ≡ count_sum self other }
    {
        Count::new(self.number + other.number)
    }

    // The number.
    pub fn get(self) -> u32
        ensures value { result ≡ self.number }
        ensures within { result ≤ most }
    {
        self.number
    }
}
