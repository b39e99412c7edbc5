// A slip, made from a marked sheet's verdict, and its release.
ghost use Rattle.std.specs.Prelude.{[], ◌≡◌};
ghost use Rattle.sheets.specs.Verdict.{result_of};
ghost use Rattle.receipts.specs.Receipt.{receipt_of, release};

use lengths::refusal::NO_RECORD;
use sheets::verdict::Verdict;

// A receipt is what 02 calls a slip.
// The refusal number or 0, the record (0 where no record is at fault), the lines accepted, and whether the slip is
// released. The refusal is a number, and no enum: C hands in any byte (`receipt_in`).
#[derive(Clone, Copy)]
pub struct Receipt {
    pub refusal: u8,
    pub rec: u16,
    pub lines: u16,
    pub released: bool,
}

// The slip of a marked sheet's verdict, not released.
pub fn new_receipt(verdict: Verdict) -> Receipt
    ensures { result ≡ receipt_of (result_of verdict []) }
{
    match verdict {
        Ok(lines) => Receipt {
            refusal: Receipt::NO_REFUSAL,
            rec: NO_RECORD,
            lines,
            released: false,
        },
        Err(stopped) => Receipt {
            refusal: stopped.refused.refusal.number(),
            rec: stopped.refused.at,
            lines: stopped.lines,
            released: false,
        },
    }
}

// The slip, released.
pub fn release(receipt: Receipt) -> Receipt
    ensures { result ≡ release receipt }
{
    Receipt {
        released: true,
        ..receipt
    }
}

impl Receipt {
    // The refusal number of a sheet that did not stop.
    pub const NO_REFUSAL: u8 = 0;

    // The first byte that the candidate sees of a sheet that stopped, until release.
    pub const STOPPED: u8 = 255;

    // How many bytes a view has.
    pub const BYTES: usize = 6;
}
