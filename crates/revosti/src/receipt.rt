// Slips for C: a slip is one 64-bit number, the answer of marking, in which bit 40 is set once it is released.
ghost use Rattle.std.specs.Prelude.{◌≡◌};
ghost use Rattle.receipts.specs.View.{examiner_view, candidate_view};
ghost use Rattle.revosti.specs.Receipt.{receipt_in, release_in_c, ViewedInC};
ghost use Rattle.revosti.specs.asks.Receipt.{ReceiptNumber};

use crate::mark::number_of;
use crate::outcome::outcome_number;
use receipts::receipt::{Receipt, release};
use receipts::view::{candidate_view, examiner_view};

// Bit 40, and the bit above it: numbers below that are those of the four values.
const RELEASED: u64 = 1_099_511_627_776;

const ABOVE: u64 = 2 * RELEASED;

// The four values in a number; its bits above 40 are not read.
fn receipt_in(number: u64) -> Receipt
    ensures { result ≡ receipt_in number }
{
    Receipt {
        refusal: (number % 256) as u8,
        rec: (number / 256 % 65_536) as u16,
        lines: (number / 16_777_216 % 65_536) as u16,
        released: number / RELEASED % 2 == 1,
    }
}

// The number of the four values.
fn receipt_number(receipt: Receipt) -> u64
    ensures { ReceiptNumber receipt result }
{
    let marked = number_of(receipt.refusal, receipt.rec, receipt.lines);
    if receipt.released {
        return marked + RELEASED;
    }
    marked
}

// The slip, released; every other bit stays.
pub fn revosti_release(receipt: u64) -> u64
    ensures { result ≡ release_in_c receipt }
{
    receipt_number(release(receipt_in(receipt))) + ABOVE * (receipt / ABOVE)
}

// Writes what the examiner sees, six bytes: the refusal number, or 0.
pub fn revosti_examiner_view(receipt: u64, bytes: &mut [u8]) -> u64
    ensures { ViewedInC (examiner_view (receipt_in receipt)) bytes.old result bytes.new }
{
    outcome_number(examiner_view(receipt_in(receipt), bytes))
}

// Writes what the candidate sees, six bytes: the refusal number, or 0.
pub fn revosti_candidate_view(receipt: u64, bytes: &mut [u8]) -> u64
    ensures { ViewedInC (candidate_view (receipt_in receipt)) bytes.old result bytes.new }
{
    outcome_number(candidate_view(receipt_in(receipt), bytes))
}
