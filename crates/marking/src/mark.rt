// The operations "mark a sheet" and "ask a sheet": the same lines, with another mark for an accepted one.
ghost use Rattle.std.specs.Prelude.{◌≤◌, ◌≡◌, Ok};
ghost use Rattle.endian.specs.Bytes.{whole16, whole32};
ghost use Rattle.argument.specs.Sheet as lines;
ghost use Rattle.marks.specs.Mark.{pending_mark};
ghost use Rattle.marks.specs.Packed.{marks_of};
ghost use Rattle.sheets.specs.Verdict.{result_of};
ghost use Rattle.sheets.specs.Rules.{marking_by};
ghost use Rattle.marking.specs.Mark.{until_sheet, tested_sheet, mark_packed_by, mark_packed, ask_packed};
ghost use Rattle.marking.specs.asks.Mark.{AdmittedBy, RowsAsked};

use admission::tests::test_ready;
use endian::bytes::count_of;
use lengths::instance::Instance;
use lengths::refusal::Refusal;
use lengths::rows::fill_rows;
use lengths::two_tables::{Rows, Tables};
use marks::mark;
use sheet_lines::line::mark_lines;
use sheets::board::Board;
use sheets::sheet::Sheet;
use sheets::verdict::Verdict;

// The numbers in the rows of few points: a place for each point and one for 0, in the row of each point and of 0.
pub const FEW_ROWS: usize = Instance::FEW_PLACES * Instance::FEW_PLACES;

// The numbers in the rows of most points.
pub const MOST_ROWS: usize = Instance::PLACES * Instance::PLACES;

// Writes the rows of lengths, and marks the lines by them: one table is what is taken out and what is put in.
fn mark_by_rows<'a>(
    n: u16,
    mark: u8,
    table: &'a [u8],
    rows: &'a mut [u32],
    marks: &mut [u8],
    sheet: &'a [u8],
    count: u16,
) -> Verdict
    requires { RowsAsked mark n (whole32 table.now) (whole32 table.now) rows.old rows.old
        (marks_of n marks.old) (whole16 sheet.now) count }
    ensures { result_of result (marks_of n marks.new) ≡ lines.sheet
        (marking_by mark n (whole32 table.now)) (whole16 sheet.now)
        (marks_of n marks.old) }
{
    fill_rows(n, table, rows);
    let board = Board {
        tables: Tables {
            n,
            out: table,
            put: table,
        },
        rows: Rows {
            n,
            out: rows,
            put: rows,
        },
        sheet,
        count,
    };
    mark_lines(board, mark, marks)
}

// Marks the lines of a sheet that passed the tests, and has so many records. Few points take a small array, which is
// cleared sooner.
fn mark_admitted(
    n: u16,
    mark: u8,
    table: &[u8],
    marks: &mut [u8],
    sheet: &[u8],
    count: u16,
) -> Verdict
    requires { AdmittedBy mark n (whole32 table.now) (whole32 table.now) (marks_of n marks.old) (whole16 sheet.now) count }
    ensures { result_of result (marks_of n marks.new) ≡ lines.sheet
        (marking_by mark n (whole32 table.now)) (whole16 sheet.now)
        (marks_of n marks.old) }
{
    if n <= Instance::FEW_POINTS {
        let mut rows = [0u32; FEW_ROWS];
        return mark_by_rows(n, mark, table, &mut rows, marks, sheet, count);
    }
    let mut rows = [0u32; MOST_ROWS];
    mark_by_rows(n, mark, table, &mut rows, marks, sheet, count)
}

// How many points the instance of a sheet that passed the tests has, and how many records the sheet.
#[derive(Clone, Copy)]
pub struct Passed {
    pub points: u16,
    pub records: u16,
}

// Test 7, behind tests that answered how many points there are.
#[tactic(auto, unfolding(sheets::specs::asks::Sheet::sheet_admission, argument::specs::Record::records))]
pub fn test_records(points: u16, sheet: &[u8]) -> Result<Passed, Refusal>
    ensures { result ≡ until_sheet (Ok points) (whole16 sheet.now) }
{
    let admitted = Sheet::admit(count_of::<u16>(sheet))?;
    Ok(Passed {
        points,
        records: admitted.records,
    })
}

// The tests of direct marking: 1, 2, 5, 6, 20 and 7.
#[tactic(auto, unfolding(crate::specs::Mark::tested_sheet))]
pub fn test_sheet(n: u32, table: &[u8], marks: &[u8], sheet: &[u8]) -> Result<Passed, Refusal>
    ensures { result ≡ tested_sheet n (whole32 table.now) (marks_of n marks.now) (whole16 sheet.now) }
{
    let points = test_ready(n, table, marks)?;
    test_records(points, sheet)
}

// A sheet whose accepted lines write the mark `mark`: tests 1, 2, 5, 6, 20 and 7, then its lines.
fn mark_with(mark: u8, n: u32, table: &[u8], marks: &mut [u8], sheet: &[u8]) -> Verdict
    requires { mark ≤ pending_mark }
    ensures { result_of result marks.new ≡ mark_packed_by mark n (whole32 table.now)
        marks.old (whole16 sheet.now) }
{
    let passed = test_sheet(n, table, marks, sheet)?;
    mark_admitted(passed.points, mark, table, marks, sheet, passed.records)
}

// Marks a sheet: an accepted line strikes its edge.
pub fn mark_sheet(n: u32, table: &[u8], marks: &mut [u8], sheet: &[u8]) -> Verdict
    ensures { result_of result marks.new ≡ mark_packed n (whole32 table.now)
        marks.old (whole16 sheet.now) }
{
    mark_with(mark::STRUCK, n, table, marks, sheet)
}

// Asks a sheet: an accepted line's edge is pending, until it is confirmed or withdrawn.
pub fn ask_sheet(n: u32, table: &[u8], marks: &mut [u8], sheet: &[u8]) -> Verdict
    ensures { result_of result marks.new ≡ ask_packed n (whole32 table.now)
        marks.old (whole16 sheet.now) }
{
    mark_with(mark::PENDING, n, table, marks, sheet)
}
