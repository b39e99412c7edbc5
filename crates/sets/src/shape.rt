// Conditions 2 and 3: no point with three edges, no short cycle.
ghost use Rattle.std.specs.Prelude.{◌≡◌, ◌-◌};
ghost use Rattle.sets.specs.Neighbours.{neighbours_of, beyond};
ghost use Rattle.sets.specs.Shape.{reaches?, shuts?};
ghost use Rattle.sets.specs.asks.Stored.{edge_list};

use crate::beyond::look_beyond;
use crate::edge_set::EdgeSet;
use crate::neighbours::{PathStep, onward};

// Is y met on the path of k that comes from `start` to `first`, in time to close a cycle of fewer than n points?
// Three points of the cycle are known where the path begins: c, start and first.
fn reaches(n: u16, k: EdgeSet, start: u16, first: u16, y: u16) -> bool
    ensures { result ≡ reaches? (n - 3) (edge_list k) start first y }
{
    let mut from = start;
    let mut at = first;
    for _ in 3..n {
        if at == y {
            return true;
        }
        match onward(k, at, from) {
            PathStep::Stop => return false,
            PathStep::Fork => return false,
            PathStep::On(v) => {
                from = at;
                at = v;
            }
        }
    }
    false
}

// Does the pair x, y at a point c give y a third edge, or close a cycle of fewer than n edges?
// `ahead` is what x has in k beyond c. There is no cycle where x or y has nothing there.
pub fn shuts(n: u16, k: EdgeSet, c: u16, x: u16, y: u16, ahead: PathStep) -> bool
    ensures { result ≡ shuts? n (edge_list k) x y ahead (beyond (neighbours_of (edge_list k) y) c) }
{
    match (ahead, look_beyond(k, y, c)) {
        (PathStep::Fork, _) | (_, PathStep::Fork) => true,
        (PathStep::On(v), PathStep::On(_)) => reaches(n, k, x, v, y),
        _ => false,
    }
}
