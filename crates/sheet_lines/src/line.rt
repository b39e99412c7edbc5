// One line of a sheet: judged against the marks as they are, and then marked; and a sheet as the repetition of one
// line.
ghost use Rattle.std.specs.Prelude.{◌≡◌};
ghost use Rattle.endian.specs.Bytes.{whole16, whole32};
ghost use Rattle.marks.specs.Mark.{open_in};
ghost use Rattle.marks.specs.Packed.{marks_of};
ghost use Rattle.argument.specs.Line.{judge_record};
ghost use Rattle.argument.specs.Line as judging;
ghost use Rattle.argument.specs.Sheet as lines;
ghost use Rattle.sheet_lines.specs.asks.Line.{MarkingAsked, LineAsked, SteppedAs, judged_of};
ghost use Rattle.sheets.specs.Verdict.{result_of};
ghost use Rattle.sheets.specs.Rules.{rules_in, marking_in};
ghost use Rattle.sheets.specs.asks.Sheet.{record_of};

use lengths::refusal::{Refusal, Refused};
use marks::mark;
use marks::mark::{is_open, set_mark};
use sets::edge_set::EdgeSet;
use sheets::board::Board;
use sheets::sheet::{Closing, Line, Record, Sheet};
use sheets::verdict::{Stopped, Verdict};
use sheets::walk::{chain, points_fit};

// What an accepted line comes to: the edge that it strikes, the next index and the highest record entered.
#[derive(Clone, Copy)]
pub struct Strike {
    pub a: u16,
    pub b: u16,
    pub next: u16,
    pub high: u16,
}

// Judges the line that was read as record i.
fn judge_line(board: Board, marks: &[u8], i: u16, line: Line) -> Result<Strike, Refused>
    requires { LineAsked board.tables.n (whole32 board.tables.out.now) (whole32 board.tables.put.now)
        board.rows.out.now board.rows.put.now (marks_of board.tables.n marks.now)
        (whole16 board.sheet.now) board.count i }
    ensures { judged_of result
        ≡ judge_record (rules_in board.entry.tables.n board.entry.tables.out.now board.entry.tables.put.now marks.now)
        (open_in board.entry.tables.n (marks_of board.entry.tables.n marks.now)) (whole16 board.entry.sheet.now) i
        (record_of (Record.Line line)) }
{
    let closing = Closing::Split {
        point: line.point,
        first: line.first,
    };
    if !points_fit(board.tables.n, line.a, line.b, closing) {
        return Err(Refusal::Point.at(i));
    }
    if !is_open(board.tables.n, marks, line.a, line.b, mark::OPEN) {
        return Err(Refusal::Struck.at(i));
    }
    let k = EdgeSet::single(line.a, line.b);
    let high = chain(
        board,
        marks,
        k,
        Sheet::MOST_SPLITS - 1,
        i,
        line.point,
        line.first,
    )?;
    Ok(Strike {
        a: line.a,
        b: line.b,
        next: line.next,
        high,
    })
}

// Judges the line that record i should be.
#[tactic(auto, unfolding(argument::specs::Line::judge, argument::specs::Line::judge_record, lengths::specs::Refusal::refusal_number))]
pub fn judge(board: Board, marks: &[u8], i: u16) -> Result<Strike, Refused>
    requires { LineAsked board.tables.n (whole32 board.tables.out.now) (whole32 board.tables.put.now)
        board.rows.out.now board.rows.put.now (marks_of board.tables.n marks.now)
        (whole16 board.sheet.now) board.count i }
    ensures { judged_of result
        ≡ judging.judge (rules_in board.entry.tables.n board.entry.tables.out.now board.entry.tables.put.now marks.now)
        (open_in board.entry.tables.n (marks_of board.entry.tables.n marks.now)) (whole16 board.entry.sheet.now) i }
{
    let Record::Line(line) = Sheet::record(board.sheet, i) else {
        return Err(Refusal::Kind.at(i));
    };
    judge_line(board, marks, i, line)
}

// One line from an index, which the record `last` has: judged and, if it is accepted, marked with `mark`. None: the
// lines are over.
pub fn mark_line(
    board: Board,
    mark: u8,
    marks: &mut [u8],
    last: u16,
    index: u16,
    high: u16,
) -> Result<Option<Strike>, Refused>
    requires { MarkingAsked mark board.tables.n (whole32 board.tables.out.now) (whole32 board.tables.put.now)
        board.rows.out.now board.rows.put.now (marks_of board.tables.n marks.old)
        (whole16 board.sheet.now) board.count }
    ensures { SteppedAs mark board.entry.tables.n (whole32 board.entry.tables.out.now)
        (whole32 board.entry.tables.put.now) (marks_of board.entry.tables.n marks.old)
        (whole16 board.entry.sheet.now) last index high result (marks_of board.entry.tables.n marks.new) }
{
    if index == 0 {
        return Ok(None);
    }
    Sheet::test_index(board.count, last, index, high)?;
    let strike = judge(board, marks, index)?;
    set_mark(board.tables.n, marks, strike.a, strike.b, mark);
    Ok(Some(strike))
}

// The lines of a sheet of so many records, from record 1 on; an accepted line marks its edge with `mark`. Ends: each
// record entered is above the highest before. A `match` in place of `?`: the lines so far go into the refusal.
pub fn mark_lines(board: Board, mark: u8, marks: &mut [u8]) -> Verdict
    requires { MarkingAsked mark board.tables.n (whole32 board.tables.out.now) (whole32 board.tables.put.now)
        board.rows.out.now board.rows.put.now (marks_of board.tables.n marks.old)
        (whole16 board.sheet.now) board.count }
    ensures { result_of result (marks_of board.entry.tables.n marks.new) ≡
        lines.sheet (marking_in mark board.entry.tables.n board.entry.tables.out.now board.entry.tables.put.now)
        (whole16 board.entry.sheet.now) (marks_of board.entry.tables.n marks.old) }
{
    let mut lines: u16 = 0;
    let mut last: u16 = 0;
    let mut index: u16 = 1;
    let mut high: u16 = 0;
    loop {
        match mark_line(board, mark, marks, last, index, high) {
            Ok(None) => return Ok(lines),
            Err(refused) => return Err(Stopped { refused, lines }),
            Ok(Some(strike)) => {
                lines += 1;
                last = index;
                index = strike.next;
                high = strike.high;
            }
        }
    }
}
