// The operation "turn": one line of one desk, the next after the last served that has a line left.
ghost use Rattle.std.specs.Prelude.{◌≡◌, ◌<◌};
ghost use Rattle.endian.specs.Bytes.{whole16, whole32};
ghost use Rattle.marks.specs.Packed.{marks_of};
ghost use Rattle.sheets.specs.Rules.{marking_of};
ghost use Rattle.desks.specs.Turn.{desk_sheet, served_of, waiting, ahead, turn_from, turn_packed, TurnedAs};
ghost use Rattle.desks.specs.asks.State.{DeskAsked};
ghost use Rattle.desks.specs.asks.Turn.{TurnAdmitted, TurnRows, ServeAsked, ServedAs, PutBackAs};

use crate::state::{STATE_BYTES, next_of, number_at, set_desk};
use endian::bytes::Number;
use lengths::instance::Instance;
use lengths::refusal::{Refusal, Refused};
use lengths::rows::fill_rows;
use lengths::two_tables::{Rows, Tables};
use marking::mark::{FEW_ROWS, MOST_ROWS, test_sheet};
use marks::mark;
use sheet_lines::line::mark_line;
use sheets::board::Board;
use sheets::sheet::Sheet;
use sheets::verdict::{Stopped, Verdict};

// What a turn makes of a desk's sheet: its next line waits at an index, which the record `owner` has, or the sheet has
// ended.
#[derive(Clone, Copy)]
pub enum Served {
    Waits { index: u16, owner: u16, lines: u16 },
    Ended(Verdict),
}

// What a turn comes to: the desk that was served, and what came of it.
#[derive(Clone, Copy)]
pub struct Turned {
    pub desk: u16,
    pub served: Served,
}

// Looks at the next index of an accepted line, in the same turn: 0 ends the sheet, 8 and 9 refuse it, and else the line
// there waits.
#[tactic(auto, unfolding(crate::specs::Turn::ahead, sheets::specs::asks::Sheet::index_tested, lengths::specs::Refusal::refusal_number))]
fn ahead(count: u16, index: u16, owner: u16, high: u16, lines: u16) -> Served
    ensures { desk_sheet result ≡ ahead count index owner high lines }
{
    if index == 0 {
        return Served::Ended(Ok(lines));
    }
    match Sheet::test_index(count, owner, index, high) {
        Ok(()) => Served::Waits {
            index,
            owner,
            lines,
        },
        Err(refused) => Served::Ended(Err(Stopped { refused, lines })),
    }
}

// Writes the rows of lengths, and marks the line that waits by them. Its index was found above every record entered,
// so none is handed on as the highest.
fn turn_by_rows<'a>(
    n: u16,
    table: &'a [u8],
    rows: &'a mut [u32],
    marks: &mut [u8],
    sheet: &'a [u8],
    count: u16,
    index: u16,
    owner: u16,
    lines: u16,
) -> Served
    requires { TurnRows n (whole32 table.now) rows.old (marks_of n marks.old) (whole16 sheet.now) count index lines }
    ensures { served_of result (marks_of n marks.new) ≡ turn_from
        (marking_of n (whole32 table.now)) (whole16 sheet.now)
        (waiting (marks_of n marks.old) index owner lines) }
{
    fill_rows(n, table, rows);
    let board = Board {
        tables: Tables {
            n,
            out: table,
            put: table,
        },
        rows: Rows {
            n,
            out: rows,
            put: rows,
        },
        sheet,
        count,
    };
    match mark_line(board, mark::STRUCK, marks, owner, index, 0) {
        Ok(None) => Served::Ended(Ok(lines)),
        Err(refused) => Served::Ended(Err(Stopped { refused, lines })),
        Ok(Some(strike)) => ahead(count, strike.next, index, strike.high, lines + 1),
    }
}

// Marks the line that waits, of a sheet that passed the tests and has so many records. Few points take a small array,
// which is cleared sooner.
fn turn_admitted(
    n: u16,
    table: &[u8],
    marks: &mut [u8],
    sheet: &[u8],
    count: u16,
    index: u16,
    owner: u16,
    lines: u16,
) -> Served
    requires { TurnAdmitted n (whole32 table.now) (marks_of n marks.old) (whole16 sheet.now) count index lines }
    ensures { served_of result (marks_of n marks.new) ≡ turn_from
        (marking_of n (whole32 table.now)) (whole16 sheet.now)
        (waiting (marks_of n marks.old) index owner lines) }
{
    if n <= Instance::FEW_POINTS {
        let mut rows = [0u32; FEW_ROWS];
        return turn_by_rows(
            n, table, &mut rows, marks, sheet, count, index, owner, lines,
        );
    }
    let mut rows = [0u32; MOST_ROWS];
    turn_by_rows(
        n, table, &mut rows, marks, sheet, count, index, owner, lines,
    )
}

// One line of a desk's sheet: the tests are repeated, and a failure ends the sheet with no record at fault.
fn turn_sheet(
    n: u32,
    table: &[u8],
    marks: &mut [u8],
    sheet: &[u8],
    index: u16,
    owner: u16,
    lines: u16,
) -> Served
    requires { lines < index }
    ensures { served_of result marks.new ≡ turn_packed n (whole32 table.now)
        marks.old (whole16 sheet.now) index owner lines }
{
    match test_sheet(n, table, marks, sheet) {
        Ok(passed) => turn_admitted(
            passed.points,
            table,
            marks,
            sheet,
            passed.records,
            index,
            owner,
            lines,
        ),
        Err(refusal) => Served::Ended(Err(Stopped {
            refused: Refused::from(refusal),
            lines,
        })),
    }
}

// Writes what a turn leaves of the served desk's numbers, all 0 where its sheet has ended.
fn put_back(desks: &mut [u8], desk: u16, served: Served)
    requires { DeskAsked desks.old desk }
    ensures { PutBackAs desks.old desk served desks.new }
{
    match served {
        Served::Waits {
            index,
            owner,
            lines,
        } => set_desk(desks, desk, index, owner, lines),
        Served::Ended(_) => set_desk(desks, desk, 0, 0, 0),
    }
}

// Serves a desk that has a line left, which is then the last served.
fn serve(
    desks: &mut [u8],
    desk: u16,
    n: u32,
    table: &[u8],
    marks: &mut [u8],
    sheet: &[u8],
) -> Served
    requires { ServeAsked desks.old desk }
    ensures { ServedAs desks.old desk n (whole32 table.now) marks.old
        (whole16 sheet.now) result desks.new marks.new }
{
    let last = 3 * desk as usize;
    let index = number_at(desks, last - 2);
    let owner = number_at(desks, last - 1);
    let lines = number_at(desks, last);
    let served = turn_sheet(n, table, marks, sheet, index, owner, lines);
    put_back(desks, desk, served);
    u16::put(desks, 0, desk);
    served
}

// One turn: test 22, then one line of the next desk that has one.
pub fn turn(
    desks: &mut [u8],
    n: u32,
    table: &[u8],
    marks: &mut [u8],
    sheet: &[u8],
) -> Result<Option<Turned>, Refusal>
    ensures { TurnedAs desks.old n (whole32 table.now) marks.old
        (whole16 sheet.now) result desks.new marks.new }
{
    if desks.len() < STATE_BYTES {
        return Err(Refusal::Buffer);
    }
    let Some(desk) = next_of(desks) else {
        return Ok(None);
    };
    let served = serve(desks, desk, n, table, marks, sheet);
    Ok(Some(Turned { desk, served }))
}
