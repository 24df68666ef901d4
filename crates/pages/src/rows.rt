// A page: rows of one width, one after the other.
ghost use Rattle.std.specs.Prelude.{◌≡◌, ℕ, ◌*◌, ◌<◌, ◌≤◌, List, ◌++◌, length, drop};
ghost use Rattle.duty.specs.declared.verdicts.Verdict.{Verdict};
ghost use Rattle.pages.specs.Pages.{paging, written};
ghost use Rattle.pages.specs.Rows.{rows_of};

use crate::lengths::page_length;
use duty::verdicts::Verdict;

// What a row of a page tells.
pub(crate) trait Row {
    // The bytes of a row.
    const WIDTH: usize;

    ghost WIDTH: { ℕ };

    // `bytes n x`: the row of x, which is of rule n.
    ghost bytes: { ℕ → Self → List ℕ };

    // `rule vs i n x`: the rule of x in row i, counted from 0, where the row before it is of rule n.
    ghost rule: { List Verdict → ℕ → ℕ → Self → ℕ };

    fn rule(&self, verdicts: &[Verdict], i: usize, before: usize) -> usize
        requires { i < usize.MAX }
        ensures { result ≡ rule verdicts.now i before self.now };

    fn write(&self, number: usize, row: &mut [u8])
        requires { length row.old ≡ WIDTH }
        ensures { row.new ≡ bytes number self.now };

    ghost wide: { (n : ℕ) (x : Self) → length (bytes n x) ≡ WIDTH };
}

// The rows at the front of the bytes.
fn write_rows<R: Row>(verdicts: &[Verdict], rows: &[R], out: &mut [u8])
    requires { R.WIDTH * length rows.now ≤ length out.old }
    ensures { out.new ≡ rows_of R.bytes (R.rule verdicts.now) 0 0 rows.now ++ drop (R.WIDTH * length rows.now) out.old }
{
    let mut rule = 0;
    for (i, row) in rows.iter().enumerate() {
        rule = row.rule(verdicts, i, rule);
        // (By index: through `chunks_exact_mut` the check sees nothing of what is written, and leaves `returns` open.)
        let at = R::WIDTH * i;
        row.write(rule, &mut out[at..at + R::WIDTH]);
    }
}

// Writes the page and answers its length; where the bytes are fewer, answers none and writes nothing.
pub(crate) fn write_page<R: Row>(verdicts: &[Verdict], rows: &[R], out: &mut [u8]) -> Option<usize>
    ensures answer { result ≡ paging (rows_of R.bytes (R.rule verdicts.now) 0 0 rows.now) out.old }
    ensures bytes { out.new ≡ written (rows_of R.bytes (R.rule verdicts.now) 0 0 rows.now) out.old }
{
    let total = page_length(R::WIDTH, rows.len(), out.len())?;
    write_rows(verdicts, rows, out);
    Some(total)
}
