// The log line.
ghost use Rattle.std.specs.Prelude.{◌≤◌};
ghost use Rattle.feed.specs.Limits.{limit};
ghost use Rattle.feed.specs.declared.fields.Field.TheVariants.{Time, Kind, Machine, Crew, Run, Reading};

// Six values, each within the limit of its field.
#[derive(Clone, Copy)]
pub struct Line {
    pub time: u32,
    pub kind: u16,
    pub machine: u16,
    pub crew: u16,
    pub run: u16,
    pub reading: u32,
    ghost timed: { time ≤ limit Time },
    ghost kinded: { kind ≤ limit Kind },
    ghost machined: { machine ≤ limit Machine },
    ghost crewed: { crew ≤ limit Crew },
    ghost ran: { run ≤ limit Run },
    ghost read: { reading ≤ limit Reading },
}
