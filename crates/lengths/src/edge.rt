// The edges of an instance and their places in a table or a set of marks.
ghost use Rattle.std.specs.Prelude.{◌≡◌, ◌≤◌};
ghost use Rattle.lengths.specs.Edge.{edge_count, IsEdge, place_up};
ghost use Rattle.lengths.specs.asks.Edge.{Follows, IsEdgeUp, Placed};
ghost use Rattle.lengths.specs.Instance.{most_points};

// How many edges n points have.
pub fn count(n: u16) -> usize
    ensures { result ≡ edge_count n }
{
    let points = n as usize;
    points * points.saturating_sub(1) / 2
}

// The place of the edge ab, in either order of its points.
pub fn place(n: u16, a: u16, b: u16) -> usize
    requires { IsEdge n a b }
    ensures { Placed n a b result }
{
    place_up(n, a.min(b), a.max(b))
}

// The place of the edge ab, where a < b: the rows of 1 to a - 1 have n - 1, n - 2, .. edges.
fn place_up(n: u16, a: u16, b: u16) -> usize
    requires { IsEdgeUp n a b }
    ensures { result ≡ place_up n a b }
{
    let points = n as usize;
    let low = a as usize;
    let high = b as usize;
    (low - 1) * (2 * points - low) / 2 + (high - low - 1)
}

// The edge that a walk over the edges comes to next, by its lower and its higher point.
#[derive(Drop)]
pub struct NextEdge {
    pub low: usize,
    pub high: usize,
}

// The edge behind ab in 01's order: to the next point of the row of a, or the first of the next row.
pub fn following(n: usize, a: usize, b: usize) -> NextEdge
    requires { (n ≤ most_points) × IsEdgeUp n a b }
    ensures { Follows n a b result.low result.high }
{
    if b < n {
        NextEdge {
            low: a,
            high: b + 1,
        }
    } else {
        NextEdge {
            low: a + 1,
            high: a + 2,
        }
    }
}
