// The sheet page.
ghost use Rattle.std.specs.Prelude.{◌≡◌, length};
ghost use Rattle.pages.specs.Pages.{letter_cells, entry_row, next_pending, rule_of, sheet_rows, ShowsSheet, paging, written};
ghost use Rattle.pages.specs.Widths.{length-entry_row};

use crate::columns::{write_cell, write_column};
use crate::rows::{Row, write_page};
use duty::entries::Entry;
use duty::verdicts::Verdict;

// The next pending rule behind a rule, which it stays at where none is left.
fn next_pending(verdicts: &[Verdict], rule: usize) -> usize
    ensures { result ≡ next_pending verdicts.now rule }
{
    verdicts
        .iter()
        .skip(rule)
        .position(|verdict| matches!(verdict, Verdict::Pending))
        .map_or(rule, |passed| rule + passed + 1)
}

// The rule of an entry that follows those of a rule: an entry at level 0 is the first of its rule.
fn rule_of(verdicts: &[Verdict], rule: usize, entry: &Entry) -> usize
    ensures { result ≡ rule_of verdicts.now rule entry.now }
{
    if entry.level == 0 {
        next_pending(verdicts, rule)
    } else {
        rule
    }
}

// The letters A to H in width 8 each, blank where a letter is not bound.
fn write_letters(out: &mut [u8], letters: &[Option<u32>; 8])
    requires { length out.old ≡ 64 }
    ensures { out.new ≡ letter_cells 8 letters.now }
{
    // (By index: through `chunks_exact_mut` the check sees nothing of what is written, and leaves `returns` open.)
    for (i, letter) in letters.iter().enumerate() {
        write_cell(&mut out[8 * i..8 * i + 8], *letter);
    }
}

// Rule number, node, level and mark in widths 4, 4, 3 and 2, the letters, and a line feed.
impl Row for Entry {
    const WIDTH: usize = 78;

    ghost WIDTH = { 78 };

    ghost bytes = { entry_row };

    ghost rule = { λ vs _ n e. rule_of vs n e };

    ghost wide = { length-entry_row };

    fn rule(&self, verdicts: &[Verdict], _i: usize, before: usize) -> usize {
        rule_of(verdicts, before, self)
    }

    fn write(&self, number: usize, row: &mut [u8]) {
        write_column(&mut row[0..4], number as u64);
        write_column(&mut row[4..8], u64::from(self.node));
        write_column(&mut row[8..11], u64::from(self.level));
        write_column(&mut row[11..13], u64::from(self.mark));
        write_letters(&mut row[13..77], &self.letters);
        row[77] = b'\n';
    }
}

// Writes the sheet page and answers its length; where the bytes are fewer, answers none and writes nothing.
pub fn write_sheet(verdicts: &[Verdict], sheet: &[Entry], out: &mut [u8]) -> Option<usize>
    ensures answer { result ≡ paging (sheet_rows verdicts.now sheet.now) out.old }
    ensures bytes { out.new ≡ written (sheet_rows verdicts.now sheet.now) out.old }
    ensures page { ShowsSheet verdicts.now sheet.now }
{
    write_page(verdicts, sheet, out)
}
