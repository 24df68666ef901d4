// Lines made of values, and read by field.
ghost use Rattle.std.specs.Prelude.{◌≡◌, ◌<◌, ◌≤◌, MatchResult};
ghost use Rattle.feed.specs.Limits.{limit};
ghost use Rattle.feed.specs.Lines.{value, line_of};

use crate::fields::Field;
use crate::lines::Line;

impl Field {
    // The value, where it is within the field's limit, or the field whose limit it is over.
    fn within(self, value: u32) -> Result<u32, Field>
        ensures { MatchResult result (λ n. (n ≡ value) × (n ≤ limit self)) (λ f. (f ≡ self) × (limit self < value)) }
    {
        if value > self.limit() {
            return Err(self);
        }
        Ok(value)
    }
}

impl Line {
    // The line with these values, or the lowest field whose value is over its limit.
    #[tactic(auto, using(crate::proofs::Limited::over_time, crate::proofs::Limited::over_kind, crate::proofs::Limited::over_machine, crate::proofs::Limited::over_crew, crate::proofs::Limited::over_run, crate::proofs::Limited::over_reading))]
    pub fn new(
        time: u32,
        kind: u32,
        machine: u32,
        crew: u32,
        run: u32,
        reading: u32,
    ) -> Result<Line, Field>
        ensures { result ≡ line_of time kind machine crew run reading }
    {
        Ok(Line {
            time: Field::Time.within(time)?,
            kind: Field::Kind.within(kind)? as u16,
            machine: Field::Machine.within(machine)? as u16,
            crew: Field::Crew.within(crew)? as u16,
            run: Field::Run.within(run)? as u16,
            reading: Field::Reading.within(reading)?,
        })
    }

    // The value of a field, which is never over the field's limit.
    pub fn value(&self, field: Field) -> u32
        ensures value { result ≡ value self.now field }
        ensures within { result ≤ limit field }
    {
        match field {
            Field::Time => self.time,
            Field::Kind => u32::from(self.kind),
            Field::Machine => u32::from(self.machine),
            Field::Crew => u32::from(self.crew),
            Field::Run => u32::from(self.run),
            Field::Reading => self.reading,
        }
    }
}
