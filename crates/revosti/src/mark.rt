// "Mark a sheet" and "ask a sheet" for C: the answer as one 64-bit number.
ghost use Rattle.std.specs.Prelude.{◌≡◌, ◌+◌, ◌*◌};
ghost use Rattle.marks.specs.Mark.{struck_mark, pending_mark};
ghost use Rattle.revosti.specs.Mark.{MarkedInC};
ghost use Rattle.revosti.specs.asks.Mark.{MarkNumber};

use lengths::refusal::NO_RECORD;
use marking::mark::{ask_sheet, mark_sheet};
use sheets::verdict::Verdict;

// The refusal number or 0, plus 256 times the record, plus 16,777,216 times the lines accepted.
pub fn number_of(refusal: u8, rec: u16, lines: u16) -> u64
    ensures { result ≡ refusal + 256 * rec + 16777216 * lines }
{
    u64::from(refusal) + 256 * u64::from(rec) + 16_777_216 * u64::from(lines)
}

// The number of a verdict on a sheet.
pub fn marked_number(verdict: Verdict) -> u64
    ensures { MarkNumber verdict result }
{
    match verdict {
        Ok(lines) => number_of(0, NO_RECORD, lines),
        Err(stopped) => number_of(
            stopped.refused.refusal.number(),
            stopped.refused.at,
            stopped.lines,
        ),
    }
}

// Marks a sheet. The table has 32 bits an edge, the sheet 16 bits a number.
pub fn revosti_mark_sheet(n: u32, table: &[u8], marks: &mut [u8], sheet: &[u8]) -> u64
    ensures { MarkedInC struck_mark n table.now marks.old sheet.now result marks.new }
{
    marked_number(mark_sheet(n, table, marks, sheet))
}

// Asks a sheet: as marking, with its strikes pending.
pub fn revosti_ask_sheet(n: u32, table: &[u8], marks: &mut [u8], sheet: &[u8]) -> u64
    ensures { MarkedInC pending_mark n table.now marks.old sheet.now result marks.new }
{
    marked_number(ask_sheet(n, table, marks, sheet))
}
