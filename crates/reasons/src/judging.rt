// A line judged by itself: nothing is marked, and its next index is not read.
ghost use Rattle.std.specs.Prelude.{◌≡◌};
ghost use Rattle.endian.specs.Bytes.{whole16, whole32};
ghost use Rattle.marks.specs.Packed.{marks_of};
ghost use Rattle.sheet_lines.specs.asks.Line.{judged_of};
ghost use Rattle.reasons.specs.asks.Telling.{JudgeAsked, JudgeRows, judged_at};

use lengths::instance::Instance;
use lengths::refusal::Refused;
use lengths::rows::fill_rows;
use lengths::two_tables::{Rows, Tables};
use marking::mark::{FEW_ROWS, MOST_ROWS};
use sheet_lines::line::{Strike, judge};
use sheets::board::Board;

// Writes the rows of lengths, and judges record i by them.
fn judge_by_rows<'a>(
    n: u16,
    table: &'a [u8],
    rows: &'a mut [u32],
    marks: &[u8],
    sheet: &'a [u8],
    count: u16,
    i: u16,
) -> Result<Strike, Refused>
    requires { JudgeRows n (whole32 table.now) rows.old (marks_of n marks.now) (whole16 sheet.now) count i }
    ensures { judged_of result ≡ judged_at n (whole32 table.now) (marks_of n marks.now) (whole16 sheet.now) i }
{
    fill_rows(n, table, rows);
    let board = Board {
        tables: Tables {
            n,
            out: table,
            put: table,
        },
        rows: Rows {
            n,
            out: rows,
            put: rows,
        },
        sheet,
        count,
    };
    judge(board, marks, i)
}

// Judges record i of a sheet that has so many records. Few points take a small array, which is cleared sooner.
pub fn judge_record(
    n: u16,
    table: &[u8],
    marks: &[u8],
    sheet: &[u8],
    count: u16,
    i: u16,
) -> Result<Strike, Refused>
    requires { JudgeAsked n (whole32 table.now) (marks_of n marks.now) (whole16 sheet.now) count i }
    ensures { judged_of result ≡ judged_at n (whole32 table.now) (marks_of n marks.now) (whole16 sheet.now) i }
{
    if n <= Instance::FEW_POINTS {
        let mut rows = [0u32; FEW_ROWS];
        return judge_by_rows(n, table, &mut rows, marks, sheet, count, i);
    }
    let mut rows = [0u32; MOST_ROWS];
    judge_by_rows(n, table, &mut rows, marks, sheet, count, i)
}
