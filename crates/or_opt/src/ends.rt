// The ends of a pair: a point x with an edge xq in K stays where the edges of K are, once it is between the
// split point c and q. What is taken out is measured by the rows `rows.out`, what is put in by `rows.put`.
ghost use Rattle.or_opt.specs.asks.Ends.{OntoAsked, Onto, AllAsked, AtAll, EndAsked, EndTold, LegAsked, LegTold, EndsAsked, EndsTold};

use lengths::instance::Instance;
use lengths::rows::{length_in, row_start};
use lengths::two_tables::Rows;
use rules::legs;
use sets::edge_set::EdgeSet;

// Does w stay where the edge uv is? Its own two edges are `taken` long together, and the edge of its other ends
// is `given` long.
fn stays(rows: Rows, w: u16, taken: u32, given: u32, u: u16, v: u16) -> bool
    requires { OntoAsked rows w taken given u v }
    ensures { Onto rows.entry w taken given u v result }
{
    if u == w || v == w {
        return true;
    }
    let at = row_start(rows.n, w);
    let new = given + length_in(rows.put, at, u) + length_in(rows.put, at, v);
    taken + length_in(rows.out, row_start(rows.n, u), v) <= new
}

// Does w stay where the edges of k are?
fn stays_at_all(rows: Rows, k: EdgeSet, w: u16, taken: u32, given: u32) -> bool
    requires { AllAsked rows k w taken given }
    ensures { AtAll rows.entry k w taken given result }
{
    for i in 0..k.count {
        if !stays(rows, w, taken, given, k.from[i], k.to[i]) {
            return false;
        }
    }
    true
}

// Does x stay where the edges of k are, once it is between c and q?
fn end_stays(rows: Rows, k: EdgeSet, c: u16, x: u16, q: u16) -> bool
    requires { EndAsked rows k c x q }
    ensures { EndTold rows.entry k c x q result }
{
    let at = row_start(rows.n, x);
    let taken = length_in(rows.out, at, c) + length_in(rows.out, at, q);
    let given = length_in(rows.put, row_start(rows.n, c), q);
    stays_at_all(rows, k, x, taken, given)
}

// Takes x, which k joins to q, as an end into its leg: FAR where it does not stay. A leg that is FAR is not looked at,
// nor the edge to c.
fn take_in_end(rows: Rows, k: EdgeSet, c: u16, x: u16, q: u16, legs: &mut [u32; Instance::PLACES])
    requires { LegAsked rows k c x q legs.old }
    ensures { LegTold rows.entry k c x q legs.old legs.new }
{
    if q != c && legs[x as usize] != legs::FAR && !end_stays(rows, k, c, x, q) {
        legs[x as usize] = legs::FAR;
    }
}

// Takes all points of k into the legs as ends.
pub fn take_in_ends(rows: Rows, k: EdgeSet, c: u16, legs: &mut [u32; Instance::PLACES])
    requires { EndsAsked rows k c legs.old }
    ensures { EndsTold rows.entry k c legs.old legs.new }
{
    for i in 0..k.count {
        take_in_end(rows, k, c, k.from[i], k.to[i], legs);
        take_in_end(rows, k, c, k.to[i], k.from[i], legs);
    }
}
