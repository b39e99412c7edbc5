// The segment of K from u to v (02, Paper 10: a stretch): the one path between them, with an inner point.
ghost use Rattle.std.specs.Prelude.{◌≢◌};
ghost use Rattle.sets.specs.asks.Stored.{edge_list};
ghost use Rattle.segments.specs.SegmentTest.{over, segment_of};
ghost use Rattle.segments.specs.asks.Segment.{Keeps};

use crate::order::Order;
use sets::edge_set::EdgeSet;
use sets::neighbours::{Neighbours, PathStep, neighbours_of, onward};

// The points of k between u and v on the path that leaves u over its neighbour a, which is not v: none where that does
// not lead to v. It takes at most as many steps as k has edges.
fn follow(k: EdgeSet, u: u16, a: u16, v: u16) -> Option<Order>
    requires { a ≢ v }
    ensures { Keeps (over (edge_list k) u v a) result }
{
    let mut order = Order::none();
    let mut from = u;
    let mut at = a;
    for _ in 0..k.count {
        if at == v {
            return Some(order);
        }
        if at == u {
            return None;
        }
        let PathStep::On(next) = onward(k, at, from) else {
            return None;
        };
        order = order.then(at);
        from = at;
        at = next;
    }
    None
}

// The inner points of the segment of k from u to v, in this order, where there is one. Of two ways from u to v the one
// that leads there is: none where both do, as in a closed tour.
pub fn segment_of(k: EdgeSet, u: u16, v: u16) -> Option<Order>
    ensures { Keeps (segment_of (edge_list k) u v) result }
{
    if u == v || k.has(u, v) {
        return None;
    }
    match neighbours_of(k, u) {
        Neighbours::One(a) => follow(k, u, a, v),
        Neighbours::Two(a, b) => follow(k, u, a, v).xor(follow(k, u, b, v)),
        Neighbours::None | Neighbours::More => None,
    }
}
