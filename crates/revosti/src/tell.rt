// "Tell a line" for C: the answer as one 64-bit number.
ghost use Rattle.std.specs.Prelude.{◌≡◌};
ghost use Rattle.endian.specs.Bytes.{whole16, whole32};
ghost use Rattle.marks.specs.Packed.{marks_of};
ghost use Rattle.reasons.specs.Telling.{telling_of};
ghost use Rattle.revosti.specs.Tell.{telling_number, ToldInC};

use lengths::refusal::Refused;
use reasons::telling::tell_line;

// The refusal number plus 256 times its record, or 65,536 times the text's length.
fn telling_number(telling: Result<u32, Refused>) -> u64
    ensures { result ≡ telling_number (telling_of telling) }
{
    match telling {
        Ok(length) => 65_536 * u64::from(length),
        Err(refused) => u64::from(refused.refusal.number()) + 256 * u64::from(refused.at),
    }
}

// Tells the line that a record of the sheet is, to the front of the text.
pub fn revosti_tell_line(
    n: u32,
    table: &[u8],
    marks: &[u8],
    sheet: &[u8],
    record: u32,
    text: &mut [u8],
) -> u64
    ensures { ToldInC n (whole32 table.now) (marks_of n marks.now) (whole16 sheet.now) «record»
        text.old result text.new }
{
    telling_number(tell_line(n, table, marks, sheet, record, text))
}
