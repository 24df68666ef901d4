// Taking lines from a feed.
ghost use Rattle.std.specs.Prelude.{◌<◌, List};
ghost use Rattle.book.specs.Rules.{Rule};
ghost use Rattle.feed.specs.declared.lines.Line.{Line};
ghost use Rattle.auditor.specs.Account.{takes};
ghost use Rattle.auditor.specs.Holds.{Holds, Took, Untouched};
ghost use Rattle.auditor.specs.Steps.{Admits, AdmitsLine, TakesOne};

use crate::answers::{Refusal, Stop, Taken};
use crate::auditors::Auditor;
use feed::faults::Item;
use feed::feeds::Feed;
use feed::lines::Line;

// The most lines that a log may have.
const LOG_LINES: u32 = 1_000_000;

// The most lines that one take may ask for.
const TAKE_LINES: u32 = 4_096;

impl Auditor {
    // The log grows by the line, or nothing changes.
    fn admit_line(&mut self, line: Line) -> Result<(), Refusal>
        requires { self.old.lines < 1000000 }
        ensures { (rs : List Rule) (log : List Line) → Holds rs log self.old → AdmitsLine rs log line result self.new }
    {
        if line.time < self.last {
            return Err(Refusal::Backdated);
        }
        let lines = self.lines + 1;
        self.standing.step(&line, lines)?;
        self.lines = lines;
        self.last = line.time;
        Ok(())
    }

    // The log grows by the line that the item is, or nothing changes.
    fn admit(&mut self, item: Item) -> Result<(), Refusal>
        ensures { (rs : List Rule) (log : List Line) → Holds rs log self.old → Admits rs log item result self.new }
    {
        if self.lines >= LOG_LINES {
            return Err(Refusal::LogFull);
        }
        match item {
            Item::Faulty(fault) => Err(Refusal::Faulty(fault)),
            Item::Sound(line) => self.admit_line(line),
        }
    }

    // Takes the first waiting line, or stops there.
    fn take_one<F: Feed>(&mut self, feed: &mut F) -> Result<(), Stop>
        ensures { (rs : List Rule) (log : List Line) → Holds rs log self.old → TakesOne rs log (F.waiting feed.old) result self.new (F.waiting feed.new) }
    {
        // (`ok_or` with `?` copies the item twice more: 49 ns to a line, and the bar is the 34 of this form before.)
        let Some(item) = feed.look() else {
            return Err(Stop::Dry);
        };
        self.admit(item)?;
        let _ = feed.drop_first();
        Ok(())
    }

    // Takes lines from the front of the feed until `count` are taken, nothing waits, or one is refused. The lines
    // taken before a refusal stay taken; what is refused stays waiting.
    pub fn take<F: Feed>(&mut self, feed: &mut F, count: u32) -> Taken
        ensures taken { (rs : List Rule) (log : List Line) → Holds rs log self.old → Took rs log (takes rs count log (F.waiting feed.old)) result self.new (F.waiting feed.new) }
        ensures untouched { Untouched count self.old self.new feed.old feed.new }
    {
        if !(1..=TAKE_LINES).contains(&count) {
            return Taken {
                lines: 0,
                stop: Stop::Refused(Refusal::Count),
            };
        }
        for lines in 0..count {
            if let Err(stop) = self.take_one(feed) {
                return Taken { lines, stop };
            }
        }
        Taken {
            lines: count,
            stop: Stop::Done,
        }
    }
}
