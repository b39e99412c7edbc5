// The walk through an argument's records: a split's chain, and the closing of a case.
ghost use Rattle.std.specs.Prelude.{◌≡◌, suc};
ghost use Rattle.endian.specs.Bytes.{whole16, whole32};
ghost use Rattle.marks.specs.Packed.{marks_of};
ghost use Rattle.sets.specs.asks.Stored.{edge_list};
ghost use Rattle.argument.specs.Record.{closing_fits, fits};
ghost use Rattle.argument.specs.Walk.{opening, close, walk};
ghost use Rattle.argument.specs.Walk as walking;
ghost use Rattle.sheets.specs.asks.Sheet.{closing_of};
ghost use Rattle.sheets.specs.Rules.{rules_in};
ghost use Rattle.sheets.specs.asks.Walk.{walked_of, looked_of, points_only, spot_of, WholeRecords, ChainAsked, CaseAsked};

use crate::board::Board;
use crate::sheet::{Case, Closing, Record, Sheet};
use crate::visits::close_by_order;
use closings::closing::close_by_three_opt;
use lengths::instance::{Instance, is_point};
use lengths::refusal::{Refusal, Refused};
use rules::legs;
use search::candidates;
use search::candidates::list_candidates;
use search::pairs::Search;
use search::split::prepare;
use sets::edge_set::EdgeSet;
use sets::neighbours::neighbours_of;

// Are the points of a closing among 1 to n?
#[tactic(auto, unfolding(argument::specs::Record::closing_fits))]
fn closing_fits(n: u16, closing: Closing) -> bool
    ensures { result ≡ closing_fits n (closing_of closing) }
{
    match closing {
        Closing::Split { point, first: _ } => is_point(n, point),
        Closing::ThreeOpt { p, q, r, s } => {
            is_point(n, p) && is_point(n, q) && is_point(n, r) && is_point(n, s)
        }
        Closing::Reorder { u, v, first: _ } => is_point(n, u) && is_point(n, v),
    }
}

// Are the points of a case, or of a line read as a case, among 1 to n, and is a not b?
#[tactic(auto, unfolding(argument::specs::Record::fits))]
pub fn points_fit(n: u16, a: u16, b: u16, closing: Closing) -> bool
    ensures { result ≡ fits n a b (closing_of closing) }
{
    is_point(n, a) && is_point(n, b) && a != b && closing_fits(n, closing)
}

// The case that a chain takes at its index, which the record `last` has: one whose pair is the next feasible one, and
// none where the chain ends. `high` is the highest record entered.
#[tactic(auto, unfolding(argument::specs::Walk::look, argument::specs::Walk::entering, argument::specs::Walk::read_case, argument::specs::Walk::none_left, argument::specs::Walk::is_next, argument::specs::Verdict::guard, crate::specs::asks::Sheet::index_tested, lengths::specs::Refusal::refusal_number))]
fn look(
    board: Board,
    next: Option<(u16, u16)>,
    last: u16,
    index: u16,
    high: u16,
) -> Result<Option<Case>, Refused>
    requires { WholeRecords (whole16 board.sheet.now) board.count }
    ensures { looked_of result ≡ walking.look (points_only board.entry.tables.n)
        (whole16 board.entry.sheet.now) (spot_of next last index high) }
{
    if index == 0 {
        return match next {
            None => Ok(None),
            Some(_) => Err(Refusal::Pair.at(last)),
        };
    }
    Sheet::test_index(board.count, last, index, high)?;
    let Record::Case(case) = Sheet::record(board.sheet, index) else {
        return Err(Refusal::Kind.at(index));
    };
    if !points_fit(board.tables.n, case.a, case.b, case.closing) {
        return Err(Refusal::Point.at(index));
    }
    if next != Some((case.a, case.b)) {
        return Err(Refusal::Pair.at(index));
    }
    Ok(Some(case))
}

// The chain of the split at c that record i holds, under k, from the index `first` on; `left` more splits may lie
// inside a case. Ends: each record entered is above the highest before, and a split inside a case leaves one split
// less. No `for`: a record names the next index.
#[cycle(chain_close_case)]
pub fn chain(
    board: Board,
    marks: &[u8],
    k: EdgeSet,
    left: u16,
    i: u16,
    c: u16,
    first: u16,
) -> Result<u16, Refused>
    requires { ChainAsked board.tables.n (whole32 board.tables.out.now) (whole32 board.tables.put.now)
        board.rows.out.now board.rows.put.now (marks_of board.tables.n marks.now)
        (whole16 board.sheet.now) board.count k left c }
    ensures { walked_of result ≡
        walk (rules_in board.entry.tables.n board.entry.tables.out.now board.entry.tables.put.now marks.now)
        (whole16 board.entry.sheet.now)
        (opening (rules_in board.entry.tables.n board.entry.tables.out.now board.entry.tables.put.now marks.now)
        (suc left) (edge_list k) i c first) }
{
    let mut legs = [legs::FAR; Instance::PLACES];
    let bound = prepare(board.tables, board.rows, marks, k, c, &mut legs);
    let centre = neighbours_of(k, c);
    let mut candidates = [0u16; candidates::PLACES];
    let mut rank = [0u16; candidates::PLACES];
    list_candidates(board.tables.n, &legs, &mut candidates, &mut rank);
    let search = Search {
        n: board.tables.n,
        table: board.tables.put,
        legs: &legs,
        candidates: &candidates,
        rank: &rank,
        bound,
        c,
        centre,
        k,
    };
    let mut x: u16 = 1;
    let mut y: u16 = 1;
    let mut last = i;
    let mut index = first;
    let mut high = i;
    loop {
        let next = search.next_pair(x, y);
        let Some(case) = look(board, next, last, index, high)? else {
            return Ok(high);
        };
        let inner = k.with_pair(c, case.a, case.b);
        high = close_case(board, marks, inner, left, index, case.closing)?;
        x = case.a;
        y = case.b;
        last = index;
        index = case.next;
    }
}

// The closing that record i holds, under k with the case's pair. Ends: its split leaves one split less to `chain`.
#[cycle(chain_close_case)]
fn close_case(
    board: Board,
    marks: &[u8],
    k: EdgeSet,
    left: u16,
    i: u16,
    closing: Closing,
) -> Result<u16, Refused>
    requires { CaseAsked board.tables.n (whole32 board.tables.out.now) (whole32 board.tables.put.now)
        board.rows.out.now board.rows.put.now (marks_of board.tables.n marks.now)
        (whole16 board.sheet.now) board.count k left closing }
    ensures { walked_of result ≡
        close (rules_in board.entry.tables.n board.entry.tables.out.now board.entry.tables.put.now marks.now)
        (whole16 board.entry.sheet.now)
        (walk (rules_in board.entry.tables.n board.entry.tables.out.now board.entry.tables.put.now marks.now)
        (whole16 board.entry.sheet.now))
        left (edge_list k) i (closing_of closing) }
{
    match closing {
        Closing::Split { point, first } => {
            if left == 0 {
                return Err(Refusal::SeventhSplit.at(i));
            }
            chain(board, marks, k, left - 1, i, point, first)
        }
        Closing::ThreeOpt { p, q, r, s } => match close_by_three_opt(board.tables, k, p, q, r, s) {
            Ok(()) => Ok(i),
            Err(refusal) => Err(refusal.at(i)),
        },
        Closing::Reorder { u, v, first } => close_by_order(board, k, i, u, v, first),
    }
}
