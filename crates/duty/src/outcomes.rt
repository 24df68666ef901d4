// What a line leaves of a rule.
ghost use Rattle.std.specs.Prelude.{◌≡◌};
ghost use Rattle.duty.specs.Stepping.{sides};

#[derive(Clone, Copy)]
pub(crate) enum Outcome {
    Satisfied,
    Breached,
    Open,
}

// What a line leaves of an `and`: a decision, both sides open, or one open and the other satisfied.
#[derive(Clone, Copy)]
pub(crate) enum Sides {
    Breached,
    Satisfied,
    Both,
    Left,
    Right,
}

pub(crate) fn sides_of(left: Outcome, right: Outcome) -> Sides
    ensures { result ≡ sides left right }
{
    match (left, right) {
        (Outcome::Breached, _) | (_, Outcome::Breached) => Sides::Breached,
        (Outcome::Satisfied, Outcome::Satisfied) => Sides::Satisfied,
        (Outcome::Satisfied, Outcome::Open) => Sides::Right,
        (Outcome::Open, Outcome::Satisfied) => Sides::Left,
        (Outcome::Open, Outcome::Open) => Sides::Both,
    }
}
