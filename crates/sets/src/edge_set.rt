// The edge set K, passed by value.
ghost use Rattle.std.specs.Prelude.{◌≡◌, ◌+◌, ◌≤◌};
ghost use Rattle.sets.specs.Joined.{joins?, has?};
ghost use Rattle.sets.specs.EdgeSet.{most_known};

// 01's K, the known edges: those that a tour is assumed to have.
// The i-th edge taken in joins from[i] and to[i], for i below count. An edge may stand twice.
#[derive(Clone, Copy)]
pub struct EdgeSet {
    pub from: [u16; EdgeSet::PLACES],
    pub to: [u16; EdgeSet::PLACES],
    pub count: usize,
    pub ghost few: { count ≤ most_known },
}

// Is the edge pq the edge ab, in either order?
fn joins(p: u16, q: u16, a: u16, b: u16) -> bool
    ensures { result ≡ joins? p q a b }
{
    p == a && q == b || p == b && q == a
}

impl EdgeSet {
    ghost use Rattle.sets.specs.asks.Stored.{edge_list, Single, Added};

    // The places of its arrays. A set holds 13 edges at most, the edge to be struck and two for each of six splits;
    // 32 bytes are copied in two halves that do not overlap, which is faster than 26.
    pub const PLACES: usize = 16;

    // The set of the one edge ab.
    pub fn single(a: u16, b: u16) -> EdgeSet
        ensures { Single a b result }
    {
        EdgeSet {
            from: [a; EdgeSet::PLACES],
            to: [b; EdgeSet::PLACES],
            count: 1,
        }
    }

    // The set with the edges cx and cy added.
    pub fn with_pair(self, c: u16, x: u16, y: u16) -> EdgeSet
        requires count_bound { self.count + 2 ≤ most_known }
        ensures { Added self c x y result }
    {
        let count = self.count;
        let mut from = self.from;
        let mut to = self.to;
        from[count] = c;
        to[count] = y;
        from[count + 1] = c;
        to[count + 1] = x;
        EdgeSet {
            from,
            to,
            count: count + 2,
        }
    }

    // Is ab one of the edges?
    pub fn has(self, a: u16, b: u16) -> bool
        ensures { result ≡ has? (edge_list self) a b }
    {
        for i in (0..self.count).rev() {
            if joins(self.from[i], self.to[i], a, b) {
                return true;
            }
        }
        false
    }
}
