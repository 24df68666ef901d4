// The held auditor.
ghost use Rattle.std.specs.Prelude.{List};
ghost use Rattle.feed.specs.declared.lines.Line.{Line};
ghost use Rattle.auditor.specs.Held.{Held};

use duty::standings::Standing;

mod opening;
mod showing;
mod taking;

// A book with the verdicts and the sheet of the lines taken so far, how many they are, and the time of the last. The
// lines themselves are not kept.
#[derive(Drop)]
pub struct Auditor {
    standing: Standing,
    lines: u32,
    last: u32,
    // they are those of some log
    ghost some: { ∥ ((log : List Line) × Held standing lines last log) ∥₁ },
}
