// The points of degree two of K, each between two others: none may move between the split point c and
// the end of a leg. What is taken out is measured by the rows `rows.out`, what is put in by `rows.put`.
ghost use Rattle.std.specs.Prelude.{◌≡◌, cond, ◌||◌, eqb};
ghost use Rattle.rules.specs.asks.Legs.{far};
ghost use Rattle.or_opt.specs.asks.DegreeTwo.{MoveAsked, Moved, MeetAsked, Met, TwoAsked, TwoTold};
ghost use Rattle.or_opt.specs.asks.DegreeTwo.{WithAsked, WithTold, PointsAsked, PointsTold};

use lengths::instance::Instance;
use lengths::rows::{length_in, row_start};
use lengths::two_tables::Rows;
use rules::legs;
use rules::legs::narrow;
use sets::edge_set::EdgeSet;

// The leg of a point between s and t: without an edge to c it would be the point's third.
fn own_leg(leg: u32, c: u16, s: u16, t: u16) -> u32
    ensures { result ≡ cond (eqb s c || eqb t c) leg far }
{
    if s == c || t == c {
        return leg;
    }
    legs::FAR
}

// Takes the point w, between s and t, into the legs: FAR where moving it between c and the leg's end makes
// the sum smaller.
fn move_between(rows: Rows, c: u16, w: u16, s: u16, t: u16, legs: &mut [u32; Instance::PLACES])
    requires { MoveAsked rows c w s t legs.old }
    ensures { Moved rows.entry c w s t legs.old legs.new }
{
    let at = row_start(rows.n, w);
    let taken = length_in(rows.out, at, s) + length_in(rows.out, at, t);
    let given = length_in(rows.put, at, c) + length_in(rows.put, row_start(rows.n, s), t);
    let own = own_leg(legs[w as usize], c, s, t);
    narrow(rows.n, rows.put, legs, at, at, taken, given, given);
    legs[w as usize] = own;
}

// The edges ws and zt of K: takes w into the legs where it is z, not c, and between two points.
fn meet(rows: Rows, c: u16, w: u16, z: u16, s: u16, t: u16, legs: &mut [u32; Instance::PLACES])
    requires { MeetAsked rows c w s t legs.old }
    ensures { Met rows.entry c w z s t legs.old legs.new }
{
    if w == z && s != t && w != c {
        move_between(rows, c, w, s, t, legs);
    }
}

// Takes the point that the edges pq and uv of K share, if there is one, into the legs.
fn take_in_shared(
    rows: Rows,
    c: u16,
    p: u16,
    q: u16,
    u: u16,
    v: u16,
    legs: &mut [u32; Instance::PLACES],
)
    requires { TwoAsked rows c p q u v legs.old }
    ensures { TwoTold rows.entry c p q u v legs.old legs.new }
{
    meet(rows, c, p, u, q, v, legs);
    meet(rows, c, p, v, q, u, legs);
    meet(rows, c, q, u, p, v, legs);
    meet(rows, c, q, v, p, u, legs);
}

// Takes the points that edge i of k shares with the edges before it into the legs.
fn take_in_with(rows: Rows, k: EdgeSet, c: u16, i: usize, legs: &mut [u32; Instance::PLACES])
    requires { WithAsked rows k c i legs.old }
    ensures { WithTold rows.entry k c i legs.old legs.new }
{
    for j in 0..i {
        take_in_shared(rows, c, k.from[i], k.to[i], k.from[j], k.to[j], legs);
    }
}

// Takes all points of degree two of k into the legs: each is shared by two edges. An edge that stands in k before
// brings nothing new.
pub fn take_in_points(rows: Rows, k: EdgeSet, c: u16, legs: &mut [u32; Instance::PLACES])
    requires { PointsAsked rows k c legs.old }
    ensures { PointsTold rows.entry k c legs.old legs.new }
{
    for i in 0..k.count {
        let before = EdgeSet {
            from: k.from,
            to: k.to,
            count: i,
        };
        if !before.has(k.from[i], k.to[i]) {
            take_in_with(rows, k, c, i, legs);
        }
    }
}
