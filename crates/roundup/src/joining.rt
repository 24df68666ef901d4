// What it takes for results of a kind to be joined.
ghost use Rattle.std.specs.Prelude.{◌≡◌};

// A kind of result with a join that may be regrouped and whose sides may be exchanged, and a neutral result
// that adds nothing.
pub trait Joining: Copy {
    ghost neutral: { Self };

    ghost join: { Self → Self → Self };

    fn neutral() -> Self
        ensures { result ≡ neutral };

    fn joined(self, other: Self) -> Self
        ensures { result ≡ join self other };

    ghost regrouped: { (x y z : Self) → join (join x y) z ≡ join x (join y z) };

    ghost exchanged: { (x y : Self) → join x y ≡ join y x };

    ghost unchanged: { (x : Self) → join neutral x ≡ x };
}
