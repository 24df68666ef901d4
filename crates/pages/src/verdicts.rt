// The verdict page.
ghost use Rattle.std.specs.Prelude.{◌≡◌, suc};
ghost use Rattle.pages.specs.Pages.{deciding_line, verdict_row, verdict_rows, paging, written};
ghost use Rattle.pages.specs.Widths.{length-verdict_row};

use crate::columns::{write_cell, write_column};
use crate::rows::{Row, write_page};
use duty::verdicts::Verdict;

// The line that decided, if one has.
fn deciding_line(verdict: Verdict) -> Option<u32>
    ensures { result ≡ deciding_line verdict }
{
    match verdict {
        Verdict::Pending => None,
        Verdict::Satisfied(line) | Verdict::Breached(line) => Some(line),
    }
}

// Rule number, verdict and deciding line in widths 4, 2 and 8, and a line feed.
impl Row for Verdict {
    const WIDTH: usize = 15;

    ghost WIDTH = { 15 };

    ghost bytes = { verdict_row };

    ghost rule = { λ _ i _ _. suc i };

    ghost wide = { length-verdict_row };

    // Rules are numbered from 1.
    fn rule(&self, _verdicts: &[Verdict], i: usize, _before: usize) -> usize {
        i + 1
    }

    fn write(&self, number: usize, row: &mut [u8]) {
        let verdict = *self;
        write_column(&mut row[0..4], number as u64);
        write_column(&mut row[4..6], u64::from(verdict.number()));
        write_cell(&mut row[6..14], deciding_line(verdict));
        row[14] = b'\n';
    }
}

// Writes the verdict page and answers its length; where the bytes are fewer, answers none and writes nothing.
pub fn write_verdicts(verdicts: &[Verdict], out: &mut [u8]) -> Option<usize>
    ensures answer { result ≡ paging (verdict_rows 1 verdicts.now) out.old }
    ensures bytes { out.new ≡ written (verdict_rows 1 verdicts.now) out.old }
{
    write_page(verdicts, verdicts, out)
}
