// Numbers parted by blanks, byte by byte.
ghost use Rattle.std.specs.Prelude.{◌≡◌, cond, eqb};
ghost use Rattle.tsplib_lines.specs.Numbers.{no_tally, no_sweep, numbers_in, tallied_of, counted, swept_blank, swept_digit, swept_byte, ended};
ghost use Rattle.tsplib_lines.specs.asks.Numbers.{Countable, Sweepable};

use crate::words::BLANK;

// How many numbers there are, the first and the largest.
#[derive(Clone, Copy)]
pub struct Tally {
    pub count: u64,
    pub first: u32,
    pub maximum: u32,
}

// The number that is begun, if one is, by its value so far, and the numbers before it.
#[derive(Clone, Copy)]
pub struct Sweep {
    pub begun: Option<u32>,
    pub tally: Tally,
}

pub const LIMIT: u64 = 4_294_967_296;

impl Tally {
    // The tally with one number more.
    fn and(self, n: u32) -> Tally
        requires { Countable self }
        ensures { result ≡ counted self n }
    {
        Tally {
            count: self.count + 1,
            first: if self.count == 0 { n } else { self.first },
            maximum: self.maximum.max(n),
        }
    }
}

impl Sweep {
    // The end of a text, or a blank: a number before it is at its end.
    fn end(self) -> Tally
        requires { Sweepable self }
        ensures { result ≡ ended self.begun self.tally }
    {
        match self.begun {
            None => self.tally,
            Some(number) => self.tally.and(number),
        }
    }

    // A digit: of a new number, or behind the digits before it, as long as the number fits 32 bits.
    fn digit(self, d: u8) -> Option<Sweep>
        ensures { result ≡ swept_digit d self.begun self.tally }
    {
        let value = self
            .begun
            .unwrap_or(0)
            .checked_mul(10)?
            .checked_add(u32::from(d))?;
        Some(Sweep {
            begun: Some(value),
            tally: self.tally,
        })
    }

    // One byte: None where it is no part of numbers.
    fn byte(self, b: u8) -> Option<Sweep>
        requires { Sweepable self }
        ensures { result ≡ swept_byte b self }
    {
        match b {
            BLANK => Some(Sweep {
                begun: None,
                tally: self.end(),
            }),
            b'0'..=b'9' => self.digit(b - b'0'),
            _ => None,
        }
    }
}

// The numbers that a text is: None where it has none or is no numbers.
pub fn numbers_of(text: &[u8]) -> Option<Tally>
    ensures { result ≡ tallied_of no_tally (numbers_in text.now) }
{
    let mut sweep = Sweep {
        begun: None,
        tally: Tally {
            count: 0,
            first: 0,
            maximum: 0,
        },
    };
    for b in text {
        sweep = sweep.byte(*b)?;
    }
    let total = sweep.end();
    if total.count == 0 { None } else { Some(total) }
}
