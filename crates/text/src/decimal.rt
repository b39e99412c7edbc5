// Numbers in decimal into a buffer, alone or behind a word: each function writes at a place and answers the next place.
ghost use Rattle.std.specs.Prelude.{[], ◌∷◌, ◌+◌};
ghost use Rattle.text.specs.Words.{Room, Wrote};
ghost use Rattle.text.specs.Decimal.{decimal, field_text};
ghost use Rattle.text.specs.asks.Decimal.{DigitAsked};

use crate::words::put_word;

// Writes a digit.
fn put_digit(digit: u32, out: &mut [u8], at: usize) -> usize
    requires { DigitAsked out.old at digit }
    ensures { Wrote out.old at ((48 + digit) ∷ []) result out.new }
{
    out[at] = b'0' + digit as u8;
    at + 1
}

// Writes a number in decimal: the digits of a tenth of it, then its last digit. Ends: a tenth of it is smaller.
pub fn put_number(n: u32, out: &mut [u8], at: usize) -> usize
    requires { Room out.old at (decimal n) }
    ensures { Wrote out.old at (decimal n) result out.new }
{
    if n < 10 {
        return put_digit(n, out, at);
    }
    let next = put_number(n / 10, out, at);
    put_digit(n % 10, out, next)
}

// Writes a word and a number.
pub fn put_field(word: &[u8], n: u32, out: &mut [u8], at: usize) -> usize
    requires { Room out.old at (field_text word.now n) }
    ensures { Wrote out.old at (field_text word.now n) result out.new }
{
    let next = put_word(word, out, at);
    put_number(n, out, next)
}
