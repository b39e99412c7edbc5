// Pages: which edges stand on one, and the edge at a place.
ghost use Rattle.std.specs.Prelude.{◌≡◌};
ghost use Rattle.lengths.specs.asks.Edge.{Cursor};
ghost use Rattle.pages.specs.Page.{page_of};
ghost use Rattle.pages.specs.asks.Page.{PlaceAsked};

use lengths::edge;
use lengths::edge::{NextEdge, following};
use lengths::refusal::Refusal;

// How many lines a page has at most.
pub const LINES: usize = 60;

// The lines of a page: the place of its first edge, and how many they are.
#[derive(Clone, Copy)]
pub struct PageLines {
    pub first: usize,
    pub lines: usize,
}

// Test 26, and the lines of a page of n points: those of its 60 edges, on the last page those of what is left.
pub fn page_of(n: u16, page: u32) -> Result<PageLines, Refusal>
    ensures { result ≡ page_of n page }
{
    if page < 1 {
        return Err(Refusal::Page);
    }
    let edges = edge::count(n);
    let first = LINES * (page as usize - 1);
    if edges <= first {
        return Err(Refusal::Page);
    }
    Ok(PageLines {
        first: first,
        lines: LINES.min(edges - first),
    })
}

// The edge at a place, from 0: as many edges behind 1-2.
pub fn edge_at(n: usize, place: usize) -> NextEdge
    requires { PlaceAsked n place }
    ensures { Cursor n place result.low result.high }
{
    let mut edge = NextEdge { low: 1, high: 2 };
    for _ in 0..place {
        edge = following(n, edge.low, edge.high);
    }
    edge
}
