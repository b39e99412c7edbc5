// The two views of a slip, six bytes each: what the examiner sees, and what the candidate sees.
ghost use Rattle.std.specs.Prelude.{[], ◌∷◌, ◌≡◌};
ghost use Rattle.endian.specs.Bytes.{little_endian};
ghost use Rattle.receipts.specs.Receipt.{flag_of};
ghost use Rattle.receipts.specs.View.{examiner_view, shown, candidate_view, ViewedAs};

use crate::receipt::Receipt;
use endian::bytes::encode16;
use lengths::refusal::{NO_RECORD, Refusal, Refused};

// The number of 16 bits whose bytes are the refusal number and whether the slip is released, 0 or 1.
fn first_two(refusal: u8, released: bool) -> u16
    ensures { little_endian 2 result ≡ refusal ∷ flag_of released ∷ [] }
{
    if released {
        return refusal as u16 + 256;
    }
    refusal as u16
}

// What the examiner sees: the refusal number, whether the slip is released, the record and the lines.
pub fn examiner_view(receipt: Receipt, bytes: &mut [u8]) -> Result<(), Refused>
    ensures { ViewedAs (examiner_view receipt) bytes.old result bytes.new }
{
    if bytes.len() < Receipt::BYTES {
        return Err(Refused::from(Refusal::Buffer));
    }
    let numbers = [
        first_two(receipt.refusal, receipt.released),
        receipt.rec,
        receipt.lines,
    ];
    encode16(&numbers, bytes);
    Ok(())
}

// The slip that the candidate is shown: until release, only whether the sheet stopped, and the lines.
fn shown(receipt: Receipt) -> Receipt
    ensures { result ≡ shown receipt }
{
    if receipt.released {
        return receipt;
    }
    let mut stopped = Receipt::STOPPED;
    if receipt.refusal == Receipt::NO_REFUSAL {
        stopped = Receipt::NO_REFUSAL;
    }
    Receipt {
        refusal: stopped,
        rec: NO_RECORD,
        lines: receipt.lines,
        released: false,
    }
}

// What the candidate sees: the examiner's bytes of the slip that the candidate is shown.
pub fn candidate_view(receipt: Receipt, bytes: &mut [u8]) -> Result<(), Refused>
    ensures { ViewedAs (candidate_view receipt) bytes.old result bytes.new }
{
    examiner_view(shown(receipt), bytes)
}
