// A new order of a segment's points: it names them, each once, and is shorter.
ghost use Rattle.std.specs.Prelude.{◌≡◌};
ghost use Rattle.endian.specs.Bytes.{whole32};
ghost use Rattle.lengths.specs.Table.{length_in};
ghost use Rattle.lengths.specs.TwoTables.{taken_out, put_in};
ghost use Rattle.sets.specs.EdgeSet.{path_edges};
ghost use Rattle.tours.specs.Tour.{total};
ghost use Rattle.segments.specs.SegmentTest.{all_named?, same_points?, reordered};
ghost use Rattle.segments.specs.asks.Order.{order_list};
ghost use Rattle.segments.specs.asks.Reorder.{PathAsked, ReorderAsked};

use crate::order::Order;
use lengths::refusal::Refusal;
use lengths::table::length_between;
use lengths::two_tables::Tables;

// Is each of the points one of the order's?
fn all_named(order: &[u16], points: &[u16]) -> bool
    ensures { result ≡ all_named? points.now order.now }
{
    points.iter().all(|x| order.contains(x))
}

// Does the order name the segment's points, each once, and nothing else?
fn same_points(order: &[u16], segment: &[u16]) -> bool
    ensures { result ≡ same_points? order.now segment.now }
{
    order.len() == segment.len() && all_named(order, segment)
}

// The length of the path from u over the points to v.
fn path_length(n: u16, table: &[u8], u: u16, points: &[u16], v: u16) -> u64
    requires { PathAsked n (whole32 table.now) u points.now v }
    ensures { result ≡ total (length_in n table.now) (path_edges u points.now v) }
{
    let mut sum: u64 = 0;
    let mut at = u;
    for &next in points {
        sum += length_between(n, table, at, next);
        at = next;
    }
    sum + length_between(n, table, at, v)
}

// Does the order of the segment's points from u to v close a case: the same points, and strictly shorter?
// The old path is measured by the table of what is taken out, the new one by that of what is put in.
pub fn reorder(tables: Tables, segment: Order, u: u16, v: u16, order: Order) -> Result<(), Refusal>
    requires { ReorderAsked tables.n (whole32 tables.out.now) (whole32 tables.put.now) segment u v order }
    ensures { result ≡ reordered (taken_out tables.entry) (put_in tables.entry) (order_list segment) u v (order_list order) }
{
    let new_points = order.points();
    let old_points = segment.points();
    if !same_points(new_points, old_points) {
        return Err(Refusal::NoSegment);
    }
    let old = path_length(tables.n, tables.out, u, old_points, v);
    if path_length(tables.n, tables.put, u, new_points, v) < old {
        return Ok(());
    }
    Err(Refusal::NotShorter)
}
