// Test 11 of the edges that are taken out: each joins two different points.
ghost use Rattle.std.specs.Prelude.{◌≡◌};
ghost use Rattle.std.specs.List.{list_all};
ghost use Rattle.savings.specs.Edges.{is_edge};

use lengths::instance::is_point;

// Is ab an edge of n points?
pub fn is_edge(n: u16, a: u16, b: u16) -> bool
    ensures { result ≡ is_edge n a b }
{
    is_point(n, a) && is_point(n, b) && a != b
}

// Are these edges of n points?
pub fn all_edges(n: u16, edges: &[(u16, u16)]) -> bool
    ensures { result ≡ list_all (λ e. is_edge n e.0 e.1) edges.now }
{
    edges.iter().all(|&(a, b)| is_edge(n, a, b))
}
