// What a point has in K beyond the split point, read from K itself.
ghost use Rattle.std.specs.Prelude.{◌≡◌};
ghost use Rattle.sets.specs.asks.Beyond.{further, passing};
ghost use Rattle.sets.specs.Neighbours.{neighbours_of, beyond};
ghost use Rattle.sets.specs.asks.Stored.{edge_list};

use crate::edge_set::EdgeSet;
use crate::neighbours::PathStep;

// What a point has, with its neighbour u taken in. A neighbour c is not counted.
fn further(met: PathStep, u: u16, c: u16) -> PathStep
    ensures { result ≡ further met u c }
{
    if u == c {
        return met;
    }
    match met {
        PathStep::Stop => PathStep::On(u),
        PathStep::On(w) => {
            if w == u {
                return met;
            }
            PathStep::Fork
        }
        PathStep::Fork => PathStep::Fork,
    }
}

// What v has, with the edge pq looked at.
fn pass(met: PathStep, p: u16, q: u16, v: u16, c: u16) -> PathStep
    ensures { result ≡ passing p q c v met }
{
    if p == v {
        return further(met, q, c);
    }
    if q == v {
        return further(met, p, c);
    }
    met
}

// What v has in k beyond c. With several points there, the edges left need not be looked at. `onward` answers the same:
// read by it the loop over pairs takes 2.7 times the instructions, and a path followed by this takes more (both tried).
pub fn look_beyond(k: EdgeSet, v: u16, c: u16) -> PathStep
    ensures { result ≡ beyond (neighbours_of (edge_list k) v) c }
{
    let mut met = PathStep::Stop;
    for i in 0..k.count {
        met = pass(met, k.from[i], k.to[i], v, c);
        if met == PathStep::Fork {
            return met;
        }
    }
    met
}
