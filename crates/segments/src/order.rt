// Points in an order: the inner points of a segment from u to v, and those that a chain names for it.
ghost use Rattle.std.specs.Prelude.{◌≡◌, ◌≤◌};
ghost use Rattle.sets.specs.asks.Stored.{most_known};

use sets::edge_set::EdgeSet;

// The points are the first `count` of the array: no heap is used.
#[derive(Clone, Copy)]
pub struct Order {
    points: [u16; EdgeSet::PLACES],
    count: usize,
    ghost few: { count ≤ most_known },
}

impl Order {
    ghost use Rattle.segments.specs.asks.Order.{order_list, NamesNone, NamesThen};

    // The most points that are kept, one more than any segment has.
    pub const MOST: usize = 13;

    // No point.
    pub fn none() -> Order
        ensures { NamesNone result }
    {
        Order {
            points: [0; EdgeSet::PLACES],
            count: 0,
        }
    }

    // The points.
    pub fn points(&self) -> &[u16]
        ensures { result.now ≡ order_list self.now }
    {
        &self.points[..self.count]
    }

    // The order with v named next. Past the most that are kept it stays as it is.
    pub fn then(self, v: u16) -> Order
        ensures { NamesThen self v result }
    {
        let count = self.count;
        if count < Order::MOST {
            let mut points = self.points;
            points[count] = v;
            return Order {
                points,
                count: count + 1,
            };
        }
        self
    }
}
