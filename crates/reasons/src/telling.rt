// The operation "tell a line" (02, Paper 6): a sentence for each pair at the first split of a line that would be
// accepted.
ghost use Rattle.endian.specs.Bytes.{whole16, whole32};
ghost use Rattle.marks.specs.Packed.{marks_of};
ghost use Rattle.sheets.specs.asks.Walk.{Admitted};
ghost use Rattle.reasons.specs.Telling.{ToldAs};
ghost use Rattle.reasons.specs.asks.Telling.{TextTold, RecordTold};
ghost use Rattle.reasons.specs.asks.LineText.{split_text, TextAsked};

use crate::judging::judge_record;
use crate::line_text::{FIRST, POINT, field, put_text};
use admission::tests::test_instance;
use endian::bytes::count_of;
use lengths::refusal::{Refusal, Refused};
use sheets::sheet::Sheet;

// Tells a split whose first case is the record `first`: the text is counted over no buffer at all, then 22, and then it
// is written.
fn tell_split(
    n: u16,
    table: &[u8],
    marks: &[u8],
    sheet: &[u8],
    a: u16,
    b: u16,
    c: u16,
    first: u16,
    text: &mut [u8],
) -> Result<u32, Refused>
    requires { TextAsked n (whole32 table.now) (marks_of n marks.now) a b c }
    ensures { TextTold (split_text n (whole32 table.now) (marks_of n marks.now) (whole16 sheet.now) a b c first)
        text.old result text.new }
{
    let mut none = [0u8; 0];
    let length = put_text(n, table, marks, sheet, a, b, c, first, &mut none);
    if text.len() < length {
        return Err(Refusal::Buffer.into());
    }
    let end = put_text(n, table, marks, sheet, a, b, c, first, text);
    Ok(end as u32)
}

// Tells a record of a sheet that passed the tests and has so many records: 8, then what judging it answers, or its
// text.
fn tell_record(
    n: u16,
    table: &[u8],
    marks: &[u8],
    sheet: &[u8],
    count: u16,
    record: u32,
    text: &mut [u8],
) -> Result<u32, Refused>
    requires { Admitted n (whole32 table.now) (whole32 table.now) (marks_of n marks.now) (whole16 sheet.now) count }
    ensures { RecordTold n (whole32 table.now) (marks_of n marks.now) (whole16 sheet.now) «record»
        text.old result text.new }
{
    if record < 1 || (count as u32) < record {
        return Err(Refusal::IndexAbove.into());
    }
    let i = record as u16;
    let strike = judge_record(n, table, marks, sheet, count, i)?;
    let c = field(sheet, i, POINT);
    let first = field(sheet, i, FIRST);
    tell_split(n, table, marks, sheet, strike.a, strike.b, c, first, text)
}

// Tells the line that a record is, by the marks from before it, and answers how many bytes its text has: tests 1, 2, 5,
// 6 and 7, then those of the record. It changes no mark, and the bytes past the text stay.
pub fn tell_line(
    n: u32,
    table: &[u8],
    marks: &[u8],
    sheet: &[u8],
    record: u32,
    text: &mut [u8],
) -> Result<u32, Refused>
    ensures { ToldAs n (whole32 table.now) (marks_of n marks.now) (whole16 sheet.now) «record»
        text.old result text.new }
{
    let points = test_instance(n, table, marks)?;
    let admitted = Sheet::admit(count_of::<u16>(sheet))?;
    tell_record(points, table, marks, sheet, admitted.records, record, text)
}
