// What the search at a split point looks up for every pair, computed once. What is taken out is measured by the table
// `tables.out`, what is put in by `tables.put`.
ghost use Rattle.std.specs.Prelude.{◌+◌, ◌*◌, ◌<◌, ◌≡◌, [], ◌∷◌, replicate};
ghost use Rattle.endian.specs.Bytes.{whole32};
ghost use Rattle.rules.specs.asks.Legs.{far};
ghost use Rattle.search.specs.asks.Split.{TakeAsked, TakenIn, TriangleAsked, TriangleIn, SplitAsked, AllTaken, SplitOf};
ghost use Rattle.search.specs.asks.Split.{SingleAsked, EdgeAsked, EdgeRowsAsked, EdgeRows, EdgeTriangle, EdgeLegsAsked, EdgeLegs};
ghost use Rattle.rules.specs.asks.Bound.{bound_of};
ghost use Rattle.lengths.specs.Edge.{edge};
ghost use Rattle.lengths.specs.Instance.{point_places};
ghost use Rattle.lengths.specs.TwoTables.{taken_out, put_in};
ghost use Rattle.marks.specs.Mark.{open_mark, pending_mark};
ghost use Rattle.marks.specs.Packed.{marks_of};

use lengths::edge;
use lengths::instance::Instance;
use lengths::rows::{fill_row, length_in, row_start};
use lengths::table::length_between;
use lengths::two_tables::{Rows, Tables};
use marks::mark;
use or_opt::degree_two::take_in_points;
use or_opt::ends::take_in_ends;
use rules::bound::tighten;
use rules::legs::{narrow, open_legs};
use rules::{bound, legs};
use sets::edge_set::EdgeSet;

// What taking in the edge pq reads: where the rows of p and q begin, and the three lengths between c, p and q.
#[derive(Clone, Copy)]
struct Triangle {
    ps: usize,
    qs: usize,
    pq: u32,
    cp: u32,
    cq: u32,
}

// The triangle of c and the edge pq, by the rows of all points: pq is taken out, cp and cq are put in.
fn triangle_of(rows: Rows, c: u16, p: u16, q: u16) -> Triangle
    requires { TriangleAsked rows.n rows.out.now rows.put.now c p q }
    ensures { TriangleIn rows.entry.n rows.entry.out.now rows.entry.put.now c p q result }
{
    let cs = row_start(rows.n, c);
    let ps = row_start(rows.n, p);
    let qs = row_start(rows.n, q);
    let pq = length_in(rows.out, ps, q);
    let cp = length_in(rows.put, cs, p);
    let cq = length_in(rows.put, cs, q);
    Triangle { ps, qs, pq, cp, cq }
}

// Takes the edge uv of K into the legs, and answers the bound with it: an edge that touches c changes neither.
fn take_in(
    tables: Tables,
    rows: Rows,
    c: u16,
    u: u16,
    v: u16,
    legs: &mut [u32; Instance::PLACES],
    bound: u32,
) -> u32
    requires { TakeAsked rows.n (whole32 tables.out.now) (whole32 tables.put.now) rows.out.now rows.put.now c u v legs.old bound }
    ensures { TakenIn rows.entry.n (whole32 tables.entry.out.now) (whole32 tables.entry.put.now) c u v legs.old bound legs.new result }
{
    if u == c || v == c {
        return bound;
    }
    let t = triangle_of(rows, c, u, v);
    narrow(rows.n, rows.put, legs, t.ps, t.qs, t.pq, t.cp, t.cq);
    tighten(c, u, v, t.pq, t.cp, t.cq, bound)
}

// Takes all edges of k into the legs, which are all FAR when lent, within a sheet, to which a pending edge is struck;
// and answers the bound. The tables are there to name the lengths: the rows hold them.
fn take_in_all(
    tables: Tables,
    rows: Rows,
    marks: &[u8],
    k: EdgeSet,
    c: u16,
    legs: &mut [u32; Instance::PLACES],
) -> u32
    requires split_asked { SplitAsked rows.n (whole32 tables.out.now) (whole32 tables.put.now) rows.out.now rows.put.now
        (marks_of rows.n marks.now) k c }
    requires legs_value { legs.old ≡ replicate point_places far }
    ensures { AllTaken rows.entry.n (whole32 tables.entry.out.now) (whole32 tables.entry.put.now) (marks_of rows.entry.n marks.now) k c legs.new result }
{
    let at = row_start(rows.n, c);
    open_legs(rows.n, marks, mark::OPEN, c, rows.out, at, legs);
    let mut bound = bound::LOOSE;
    for i in 0..k.count {
        bound = take_in(tables, rows, c, k.from[i], k.to[i], legs, bound);
    }
    bound
}

// What the search looks up for k at c within a sheet: writes the legs, which are all FAR when lent, and answers
// the bound. legs[x] is then the length from c to x, as it is taken out, where cx is open and compatible with every
// edge of k, no point of degree two of k moves between c and x, x itself stays, and no two edges of k meet in x off c;
// else FAR. A pair x, y meets conditions 1, 4 and 5, and of 2 that neither is such a point, exactly when
// legs[x] + legs[y] + MOST_LENGTH is at most put(xy) + bound.
pub fn prepare(
    tables: Tables,
    rows: Rows,
    marks: &[u8],
    k: EdgeSet,
    c: u16,
    legs: &mut [u32; Instance::PLACES],
) -> u32
    requires split_asked { SplitAsked tables.n (whole32 tables.out.now) (whole32 tables.put.now) rows.out.now rows.put.now (marks_of tables.n marks.now) k c }
    requires same { rows.n ≡ tables.n }
    requires legs_value { legs.old ≡ replicate point_places far }
    ensures { SplitOf open_mark tables.entry.n (whole32 tables.entry.out.now) (whole32 tables.entry.put.now)
        (marks_of tables.entry.n marks.now) k c legs.new result }
{
    let bound = take_in_all(tables, rows, marks, k, c, legs);
    take_in_points(rows, k, c, legs);
    take_in_ends(rows, k, c, legs);
    bound
}

// Writes the row of c of what is taken out and those of a and b of what is put in side by side.
fn fill_edge_rows(tables: Tables, a: u16, b: u16, c: u16, rows: &mut [u32])
    requires { EdgeRowsAsked tables.n (whole32 tables.out.now) (whole32 tables.put.now) a b c rows.old }
    ensures { EdgeRows tables.entry.n (whole32 tables.entry.out.now) (whole32 tables.entry.put.now) a b c rows.new }
{
    let n = tables.n;
    fill_row(n, tables.out, c, rows, 0);
    fill_row(n, tables.put, a, rows, Instance::PLACES);
    fill_row(n, tables.put, b, rows, 2 * Instance::PLACES);
}

// The triangle of c and the edge ab, by the tables and these rows.
fn edge_triangle(tables: Tables, a: u16, b: u16, c: u16) -> Triangle
    requires { EdgeAsked tables.n (whole32 tables.out.now) (whole32 tables.put.now) a b c }
    ensures { EdgeTriangle tables.entry.n (whole32 tables.entry.out.now) (whole32 tables.entry.put.now) a b c result }
{
    let ab = length_between(tables.n, tables.out, a, b) as u32;
    let ca = length_between(tables.n, tables.put, c, a) as u32;
    let cb = length_between(tables.n, tables.put, c, b) as u32;
    Triangle {
        ps: Instance::PLACES,
        qs: 2 * Instance::PLACES,
        pq: ab,
        cp: ca,
        cq: cb,
    }
}

// Writes the legs of K = {ab} at c, where a pending edge counts as open, over legs that are all FAR when lent.
fn legs_for_edge(
    tables: Tables,
    marks: &[u8],
    a: u16,
    b: u16,
    c: u16,
    legs: &mut [u32; Instance::PLACES],
)
    requires edge_legs_asked { EdgeLegsAsked tables.n (whole32 tables.out.now) (whole32 tables.put.now) (marks_of tables.n marks.now) a b c }
    requires legs_value { legs.old ≡ replicate point_places far }
    ensures { EdgeLegs tables.entry.n (whole32 tables.entry.out.now) (whole32 tables.entry.put.now) (marks_of tables.entry.n marks.now) a b c legs.new }
{
    let mut rows = [0u32; 3 * Instance::PLACES];
    fill_edge_rows(tables, a, b, c, &mut rows);
    open_legs(tables.n, marks, mark::PENDING, c, &rows, 0, legs);
    let t = edge_triangle(tables, a, b, c);
    narrow(tables.n, &rows, legs, t.ps, t.qs, t.pq, t.cp, t.cq);
}

// The bound of K = {ab} at c.
fn bound_for_edge(tables: Tables, a: u16, b: u16, c: u16) -> u32
    requires { EdgeAsked tables.n (whole32 tables.out.now) (whole32 tables.put.now) a b c }
    ensures { result ≡ bound_of (taken_out tables.entry) (put_in tables.entry) (edge a b ∷ []) c }
{
    let t = edge_triangle(tables, a, b, c);
    tighten(c, a, b, t.pq, t.cp, t.cq, bound::LOOSE)
}

// The same for a set k of one edge in the pair list, which counts a pending edge as open, by three rows alone.
pub fn prepare_single(
    tables: Tables,
    marks: &[u8],
    k: EdgeSet,
    c: u16,
    legs: &mut [u32; Instance::PLACES],
) -> u32
    requires single_asked { SingleAsked tables.n (whole32 tables.out.now) (whole32 tables.put.now) (marks_of tables.n marks.now) k c }
    requires legs_value { legs.old ≡ replicate point_places far }
    ensures { SplitOf pending_mark tables.entry.n (whole32 tables.entry.out.now) (whole32 tables.entry.put.now)
        (marks_of tables.entry.n marks.now) k c legs.new result }
{
    let a = k.from[0];
    let b = k.to[0];
    legs_for_edge(tables, marks, a, b, c, legs);
    bound_for_edge(tables, a, b, c)
}
