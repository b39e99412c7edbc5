// The verdict on a sheet: a result, or a refusal with its record.
ghost use Rattle.std.specs.Prelude.{◌≡◌};
ghost use Rattle.sheets.specs.Verdict.{stopped_at_call};

use lengths::refusal::{Refusal, Refused};

// Where a sheet stops: the refusal with its record, and the lines accepted before.
#[derive(Clone, Copy, Debug, PartialEq, Eq)]
pub struct Stopped {
    pub refused: Refused,
    pub lines: u16,
}

// Accepted whole, with the number of lines; or where it stops.
pub type Verdict = Result<u16, Stopped>;

// A test of the call fails: no record is at fault, and no line was accepted.
impl From<Refusal> for Stopped {
    ghost from_gives = { λ refusal r. r ≡ stopped_at_call refusal };

    fn from(refusal: Refusal) -> Stopped {
        Stopped {
            refused: Refused::from(refusal),
            lines: 0,
        }
    }
}
