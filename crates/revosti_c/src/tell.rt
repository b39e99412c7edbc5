// "Tell a line" for C: the answer as one 64-bit number.
ghost use Rattle.endian.specs.Bytes.{whole16, whole32};
ghost use Rattle.marks.specs.Packed.{marks_of};
ghost use Rattle.revosti.specs.Tell.{ToldInC};

// Tells the line that a record of the sheet is, to the front of the text.
#[unsafe(no_mangle)]
pub extern "C" fn revosti_tell_line(
    n: u32,
    table: &[u8],
    marks: &[u8],
    sheet: &[u8],
    record: u32,
    text: &mut [u8],
) -> u64
    ensures { ToldInC n (whole32 table.now) (marks_of n marks.now) (whole16 sheet.now) «record»
        text.old result text.new }
{
    revosti::tell::revosti_tell_line(n, table, marks, sheet, record, text)
}
