// Numbers in columns.
ghost use Rattle.std.specs.Prelude.{◌≡◌, length};
ghost use Rattle.pages.specs.Aligned.{last_byte, in_front, aligned};
ghost use Rattle.pages.specs.Columns.{column, cell};

// The last digit, or a blank where there is no number.
fn last_byte(number: Option<u64>) -> u8
    ensures { result ≡ last_byte number }
{
    number.map_or(b' ', |n| b'0' + (n % 10) as u8)
}

// The digits in front of the last one, if there are any.
fn in_front(number: Option<u64>) -> Option<u64>
    ensures { result ≡ in_front number }
{
    number.filter(|n| *n >= 10).map(|n| n / 10)
}

// Fills a column of any width from its last byte on, with blanks in front of the digits.
fn write_aligned(out: &mut [u8], number: Option<u64>)
    ensures { out.new ≡ aligned (length out.old) number }
{
    if let Some((last, front)) = out.split_last_mut() {
        *last = last_byte(number);
        write_aligned(front, in_front(number));
    }
}

// The digits behind blanks.
pub(crate) fn write_column(out: &mut [u8], number: u64)
    ensures { out.new ≡ column (length out.old) number }
{
    write_aligned(out, Some(number));
}

// A column that is all blank where there is no number.
pub(crate) fn write_cell(out: &mut [u8], number: Option<u32>)
    ensures { out.new ≡ cell (length out.old) number }
{
    match number {
        Some(number) => write_column(out, u64::from(number)),
        None => out.fill(b' '),
    }
}
