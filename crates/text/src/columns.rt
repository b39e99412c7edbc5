// Numbers in columns: written right-aligned at a place, with the next place as the answer; and read again.
ghost use Rattle.std.specs.Prelude.{◌≡◌, ◌≤◌, length};
ghost use Rattle.text.specs.Words.{Room, Wrote, blanks};
ghost use Rattle.text.specs.Decimal.{decimal, value_from};
ghost use Rattle.text.specs.Columns.{padded};
ghost use Rattle.text.specs.asks.Columns.{PaddedAsked, most_columns};

use crate::decimal::put_number;

// How many digits a number has: one more than the exponent of the power of ten at or below it.
pub fn digit_count(n: u32) -> usize
    ensures { result ≡ length (decimal n) }
{
    n.max(1).ilog10() as usize + 1
}

// Writes so many blanks.
fn put_blanks(count: usize, out: &mut [u8], at: usize) -> usize
    requires { Room out.old at (blanks count) }
    ensures { Wrote out.old at (blanks count) result out.new }
{
    let next = at + count;
    out[at..next].fill(b' ');
    next
}

// Writes a number in so many columns.
pub fn put_padded(width: usize, n: u32, out: &mut [u8], at: usize) -> usize
    requires { PaddedAsked width n out.old at }
    ensures { Wrote out.old at (padded width n) result out.new }
{
    let digits = digit_count(n);
    let next = put_blanks(width - digits, out, at);
    put_number(n, out, next)
}

// The value of columns, whatever bytes they are: a byte below the digits, as a blank is, counts as 0.
pub fn value_of(columns: &[u8]) -> u32
    requires { length columns.now ≤ most_columns }
    ensures { result ≡ value_from 0 columns.now }
{
    let mut value = 0;
    for b in columns {
        value = 10 * value + u32::from(b.saturating_sub(b'0'));
    }
    value
}
