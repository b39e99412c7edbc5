// The neighbours of a point in an edge set, as far as they matter: none, one, two, or more.
ghost use Rattle.std.specs.Prelude.{◌≡◌};
ghost use Rattle.sets.specs.Neighbours.{with_point, seen, neighbours_of, beyond, ends_of};
ghost use Rattle.sets.specs.asks.Stored.{edge_list};

use crate::edge_set::EdgeSet;

// The different neighbours of a point.
#[derive(Clone, Copy)]
pub enum Neighbours {
    None,
    One(u16),
    Two(u16, u16),
    More,
}

// The neighbours of a point other than the one that the path came from: none, one, or several.
#[derive(Clone, Copy, PartialEq, Eq)]
pub enum PathStep {
    Stop,
    On(u16),
    Fork,
}

impl Neighbours {
    // With the neighbour u taken in. One that is there already is not counted again.
    fn with(self, u: u16) -> Neighbours
        ensures { result ≡ with_point self u }
    {
        match self {
            Neighbours::None => Neighbours::One(u),
            Neighbours::One(a) => {
                if a == u {
                    return Neighbours::One(a);
                }
                Neighbours::Two(a, u)
            }
            Neighbours::Two(a, b) => {
                if a == u || b == u {
                    return Neighbours::Two(a, b);
                }
                Neighbours::More
            }
            Neighbours::More => Neighbours::More,
        }
    }

    // With the edge pq looked at, for the neighbours of v.
    fn seeing(self, p: u16, q: u16, v: u16) -> Neighbours
        ensures { result ≡ seen p q v self }
    {
        if p == v {
            return self.with(q);
        }
        if q == v {
            return self.with(p);
        }
        self
    }

    // The neighbours other than from.
    pub fn beyond(self, from: u16) -> PathStep
        ensures { result ≡ beyond self from }
    {
        match self {
            Neighbours::None => PathStep::Stop,
            Neighbours::One(a) => {
                if a == from {
                    return PathStep::Stop;
                }
                PathStep::On(a)
            }
            Neighbours::Two(a, b) => {
                if a == from {
                    return PathStep::On(b);
                }
                if b == from {
                    return PathStep::On(a);
                }
                PathStep::Fork
            }
            Neighbours::More => PathStep::Fork,
        }
    }
}

// The different neighbours of v in k.
pub fn neighbours_of(k: EdgeSet, v: u16) -> Neighbours
    ensures { result ≡ neighbours_of (edge_list k) v }
{
    let mut found = Neighbours::None;
    for i in 0..k.count {
        found = found.seeing(k.from[i], k.to[i], v);
    }
    found
}

// The neighbours of v in k other than from.
pub fn onward(k: EdgeSet, v: u16, from: u16) -> PathStep
    ensures { result ≡ beyond (neighbours_of (edge_list k) v) from }
{
    neighbours_of(k, v).beyond(from)
}

// The other ends of r's edges in k, where there are exactly two.
pub fn ends_of(k: EdgeSet, r: u16) -> Option<(u16, u16)>
    ensures { result ≡ ends_of (edge_list k) r }
{
    match neighbours_of(k, r) {
        Neighbours::Two(x, y) => Some((x, y)),
        _ => None,
    }
}
