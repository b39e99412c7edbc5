// A chain of points: the new order of a segment that a case is closed by (02, Paper 10).
ghost use Rattle.std.specs.Prelude.{◌≡◌};
ghost use Rattle.endian.specs.Bytes.{whole16, whole32};
ghost use Rattle.lengths.specs.TwoTables.{taken_out, put_in};
ghost use Rattle.sets.specs.asks.Stored.{edge_list};
ghost use Rattle.argument.specs.Walk.{look_visit, close_by_order};
ghost use Rattle.segments.specs.SegmentTest.{segment?, reordering};
ghost use Rattle.sheets.specs.asks.Visits.{next_visit_of, VisitedAs, OrderAsked};
ghost use Rattle.sheets.specs.asks.Walk.{walked_of, WholeRecords};

use crate::board::Board;
use crate::sheet::{Record, Sheet, Visit};
use lengths::instance::is_point;
use lengths::refusal::{Refusal, Refused};
use segments::order::Order;
use segments::reorder::reorder;
use segments::segment::segment_of;
use sets::edge_set::EdgeSet;

// What a chain of points comes to: the order that it names, as far as it is kept, and the highest record entered.
#[derive(Clone, Copy)]
pub struct Visited {
    pub order: Order,
    pub high: u16,
}

// The point that a chain of points names at its index, behind the record `high`, the highest entered: none where the
// chain ends.
#[tactic(auto, unfolding(argument::specs::Walk::look_visit, argument::specs::Walk::entering, argument::specs::Walk::read_visit, argument::specs::Verdict::guard, crate::specs::asks::Sheet::index_tested, lengths::specs::Refusal::refusal_number))]
fn next_visit(board: Board, high: u16, index: u16) -> Result<Option<Visit>, Refused>
    requires { WholeRecords (whole16 board.sheet.now) board.count }
    ensures { next_visit_of result ≡
        look_visit board.entry.tables.n (whole16 board.entry.sheet.now) high index }
{
    if index == 0 {
        return Ok(None);
    }
    Sheet::test_index(board.count, high, index, high)?;
    let Record::Visit(visit) = Sheet::record(board.sheet, index) else {
        return Err(Refusal::Kind.at(index));
    };
    if !is_point(board.tables.n, visit.point) {
        return Err(Refusal::Point.at(index));
    }
    Ok(Some(visit))
}

// The points that the chain from the index `first` on names, behind the record i. It ends since each record entered
// is above the last.
fn visit_all(board: Board, i: u16, first: u16) -> Result<Visited, Refused>
    requires { WholeRecords (whole16 board.sheet.now) board.count }
    ensures { VisitedAs board.entry.tables.n (whole16 board.entry.sheet.now) i first result }
{
    let mut order = Order::none();
    let mut high = i;
    let mut index = first;
    while let Some(visit) = next_visit(board, high, index)? {
        order = order.then(visit.point);
        high = index;
        index = visit.next;
    }
    Ok(Visited { order, high })
}

// The new order of the segment from u to v under k that record i holds: 23 where there is no such segment, what
// the chain of points is refused by, 23 where it does not name the segment's points, 24 where it is not shorter.
pub fn close_by_order(
    board: Board,
    k: EdgeSet,
    i: u16,
    u: u16,
    v: u16,
    first: u16,
) -> Result<u16, Refused>
    requires { OrderAsked board.tables.n (whole32 board.tables.out.now) (whole32 board.tables.put.now)
        (whole16 board.sheet.now) board.count k u v }
    ensures { walked_of result ≡ close_by_order board.entry.tables.n (segment? (edge_list k) u v)
        (reordering (taken_out board.entry.tables) (put_in board.entry.tables) (edge_list k) u v)
        (whole16 board.entry.sheet.now) i first }
{
    let Some(segment) = segment_of(k, u, v) else {
        return Err(Refusal::NoSegment.at(i));
    };
    let visited = visit_all(board, i, first)?;
    match reorder(board.tables, segment, u, v, visited.order) {
        Ok(()) => Ok(visited.high),
        Err(refusal) => Err(refusal.at(i)),
    }
}
