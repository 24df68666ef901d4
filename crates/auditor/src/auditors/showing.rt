// The two pages of an auditor.
ghost use Rattle.std.specs.Prelude.{◌≡◌, List};
ghost use Rattle.feed.specs.declared.lines.Line.{Line};
ghost use Rattle.book.specs.Rules.{Rule};
ghost use Rattle.duty.specs.Standings.{verdicts_of};
ghost use Rattle.duty.specs.Verdicts.{verdicts};
ghost use Rattle.pages.specs.Pages.{verdict_page, sheet_page, written};
ghost use Rattle.auditor.specs.Holds.{Holds};
ghost use Rattle.auditor.specs.Showing.{verdicts_shown, sheet_shown, page_answer};

use crate::answers::Refusal;
use crate::auditors::Auditor;
use duty::verdicts::Verdict;
use pages::sheets::write_sheet;
use pages::verdicts::write_verdicts;

impl Auditor {
    // The verdicts of the rules on the log, in the order of the book.
    pub fn verdicts(&self) -> &[Verdict]
        ensures value { result.now ≡ verdicts_of self.now.standing }
        ensures log { (rs : List Rule) (log : List Line) → Holds rs log self.now → result.now ≡ verdicts rs log }
    {
        self.standing.verdicts()
    }

    // Writes the verdict page of the log and answers its length; what lies beyond it in the buffer stays. A buffer that
    // is shorter is left as it is.
    pub fn verdict_page(&self, out: &mut [u8]) -> Result<usize, Refusal>
        ensures answer { result ≡ page_answer (verdicts_shown self.now) out.old }
        ensures bytes { out.new ≡ written (verdicts_shown self.now) out.old }
        ensures page { (rs : List Rule) (log : List Line) → Holds rs log self.now → verdicts_shown self.now ≡ verdict_page rs log }
    {
        write_verdicts(self.standing.verdicts(), out).ok_or(Refusal::ShortBuffer)
    }

    // The same with the sheet page.
    pub fn sheet_page(&self, out: &mut [u8]) -> Result<usize, Refusal>
        ensures answer { result ≡ page_answer (sheet_shown self.now) out.old }
        ensures bytes { out.new ≡ written (sheet_shown self.now) out.old }
        ensures page { (rs : List Rule) (log : List Line) → Holds rs log self.now → sheet_shown self.now ≡ sheet_page rs log }
    {
        let standing = &self.standing;
        write_sheet(standing.verdicts(), standing.sheet(), out).ok_or(Refusal::ShortBuffer)
    }
}
