// "Mark a sheet" over two tables: what is taken out counts low, what is put in counts high.
ghost use Rattle.std.specs.Prelude.{◌≡◌};
ghost use Rattle.endian.specs.Bytes.{whole16, whole32};
ghost use Rattle.argument.specs.Sheet as lines;
ghost use Rattle.marks.specs.Mark.{struck_mark};
ghost use Rattle.marks.specs.Packed.{marks_of};
ghost use Rattle.sheets.specs.Verdict.{result_of};
ghost use Rattle.sheets.specs.Rules.{marking_between};
ghost use Rattle.admission.specs.Tests.{ready_between};
ghost use Rattle.marking.specs.Mark.{until_sheet};
ghost use Rattle.marking.specs.MarkBetween.{mark_between_packed};
ghost use Rattle.marking.specs.asks.Mark.{AdmittedBy, RowsAsked};

use crate::mark::{FEW_ROWS, MOST_ROWS, Passed, test_records};
use admission::tests::test_between_ready;
use lengths::instance::Instance;
use lengths::refusal::Refusal;
use lengths::rows::fill_rows;
use lengths::two_tables::{Rows, Tables};
use marks::mark;
use sheet_lines::line::mark_lines;
use sheets::board::Board;
use sheets::verdict::Verdict;

// Writes the rows of both tables, and marks the lines by them. Apart from `mark::mark_by_rows`, which writes one array of
// rows: one function for both would have to be told which rows to write, or write those of one table twice.
fn mark_by_rows<'a>(
    n: u16,
    low: &'a [u8],
    high: &'a [u8],
    lows: &'a mut [u32],
    highs: &'a mut [u32],
    marks: &mut [u8],
    sheet: &'a [u8],
    count: u16,
) -> Verdict
    requires { RowsAsked struck_mark n (whole32 low.now) (whole32 high.now) lows.old highs.old
        (marks_of n marks.old) (whole16 sheet.now) count }
    ensures { result_of result (marks_of n marks.new) ≡ lines.sheet
        (marking_between struck_mark n (whole32 low.now) (whole32 high.now))
        (whole16 sheet.now) (marks_of n marks.old) }
{
    fill_rows(n, low, lows);
    fill_rows(n, high, highs);
    let board = Board {
        tables: Tables {
            n,
            out: low,
            put: high,
        },
        rows: Rows {
            n,
            out: lows,
            put: highs,
        },
        sheet,
        count,
    };
    mark_lines(board, mark::STRUCK, marks)
}

// Marks the lines of a sheet that passed the tests, and has so many records. Few points take small arrays, which are
// cleared sooner.
fn mark_admitted(
    n: u16,
    low: &[u8],
    high: &[u8],
    marks: &mut [u8],
    sheet: &[u8],
    count: u16,
) -> Verdict
    requires { AdmittedBy struck_mark n (whole32 low.now) (whole32 high.now) (marks_of n marks.old) (whole16 sheet.now) count }
    ensures { result_of result (marks_of n marks.new) ≡ lines.sheet
        (marking_between struck_mark n (whole32 low.now) (whole32 high.now))
        (whole16 sheet.now) (marks_of n marks.old) }
{
    if n <= Instance::FEW_POINTS {
        let mut lows = [0u32; FEW_ROWS];
        let mut highs = [0u32; FEW_ROWS];
        return mark_by_rows(n, low, high, &mut lows, &mut highs, marks, sheet, count);
    }
    let mut lows = [0u32; MOST_ROWS];
    let mut highs = [0u32; MOST_ROWS];
    mark_by_rows(n, low, high, &mut lows, &mut highs, marks, sheet, count)
}

// Tests 1, 2, 5, 25, 6, 20 and 7.
fn test_between_sheet(
    n: u32,
    low: &[u8],
    high: &[u8],
    marks: &[u8],
    sheet: &[u8],
) -> Result<Passed, Refusal>
    ensures { result ≡ until_sheet (ready_between n (whole32 low.now) (whole32 high.now) (marks_of n marks.now))
        (whole16 sheet.now) }
{
    let points = test_between_ready(n, low, high, marks)?;
    test_records(points, sheet)
}

// Marks a sheet: tests 1, 2, 5, 25, 6, 20 and 7, then its lines. An accepted line strikes its edge.
pub fn mark_between(n: u32, low: &[u8], high: &[u8], marks: &mut [u8], sheet: &[u8]) -> Verdict
    ensures { result_of result marks.new ≡ mark_between_packed n (whole32 low.now)
        (whole32 high.now) marks.old (whole16 sheet.now) }
{
    let passed = test_between_sheet(n, low, high, marks, sheet)?;
    mark_admitted(passed.points, low, high, marks, sheet, passed.records)
}
