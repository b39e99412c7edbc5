// The 3-opt closing (01, "Arguments"): its conditions, and the labelling that saves on both moves. What is
// taken out is measured by the one table, what is put in by the other.
ghost use Rattle.std.specs.Prelude.{◌≡◌};
ghost use Rattle.endian.specs.Bytes.{whole32};
ghost use Rattle.lengths.specs.TwoTables.{taken_out, put_in};
ghost use Rattle.closings.specs.ClosingTest.{centres_apart?, placed?, saves?, labelling?, three_opt_outcome};
ghost use Rattle.closings.specs.asks.ClosingTest.{Labelled, ThreeOptAsked};
ghost use Rattle.sets.specs.asks.Stored.{edge_list};

use crate::saving::first_saving;
use lengths::refusal::Refusal;
use lengths::two_tables::Tables;
use sets::edge_set::EdgeSet;
use sets::neighbours::ends_of;

// Do both moves save by this labelling? The second, which is the first by other names, is looked at where the first
// does.
#[tactic(auto, using(crate::proofs::Savings::above_gains, crate::proofs::Savings::second_is, crate::proofs::Savings::saves_law))]
fn both_moves_save(
    tables: Tables,
    p: u16,
    q: u16,
    r: u16,
    s: u16,
    x: u16,
    y: u16,
    z: u16,
    w: u16,
) -> bool
    requires { Labelled tables.n (whole32 tables.out.now) p q r s x y z w × Labelled tables.n (whole32 tables.put.now) p q r s x y z w }
    ensures { result ≡ saves? (taken_out tables.entry) (put_in tables.entry) p q r s x y z w }
{
    first_saving(tables, p, q, r, s, x, w) > 0 && first_saving(tables, q, p, r, s, y, z) > 0
}

// Do both moves save by some labelling: x and y swapped or not, z and w swapped or not?
#[tactic(auto, using(crate::proofs::ClosingTests::labelling_law))]
fn some_labelling_saves(
    tables: Tables,
    p: u16,
    q: u16,
    r: u16,
    s: u16,
    x: u16,
    y: u16,
    z: u16,
    w: u16,
) -> bool
    requires { Labelled tables.n (whole32 tables.out.now) p q r s x y z w × Labelled tables.n (whole32 tables.put.now) p q r s x y z w }
    ensures { result ≡ labelling? (taken_out tables.entry) (put_in tables.entry) p q r s x y z w }
{
    both_moves_save(tables, p, q, r, s, x, y, z, w)
        || both_moves_save(tables, p, q, r, s, x, y, w, z)
        || both_moves_save(tables, p, q, r, s, y, x, z, w)
        || both_moves_save(tables, p, q, r, s, y, x, w, z)
}

// Are r and s different, and neither of them p or q?
fn centres_apart(p: u16, q: u16, r: u16, s: u16) -> bool
    ensures { result ≡ centres_apart? p q r s }
{
    r != s && r != p && r != q && s != p && s != q
}

// Is pq an edge of k and rs none, with the centres r and s apart from each other and from pq?
fn well_placed(k: EdgeSet, p: u16, q: u16, r: u16, s: u16) -> bool
    ensures { result ≡ placed? (edge_list k) p q r s }
{
    k.has(p, q) && centres_apart(p, q, r, s) && !k.has(r, s)
}

// Does the 3-opt closing with the edge pq and the centres r and s close k? It does not where these are no 3-opt
// closing's, and where no labelling saves.
pub fn close_by_three_opt(
    tables: Tables,
    k: EdgeSet,
    p: u16,
    q: u16,
    r: u16,
    s: u16,
) -> Result<(), Refusal>
    requires { ThreeOptAsked tables.n (whole32 tables.out.now) k p q r s × ThreeOptAsked tables.n (whole32 tables.put.now) k p q r s }
    ensures { result ≡ three_opt_outcome (taken_out tables.entry) (put_in tables.entry) (edge_list k) p q r s }
{
    if !well_placed(k, p, q, r, s) {
        return Err(Refusal::Crossing);
    }
    let (x, y) = ends_of(k, r).ok_or(Refusal::Crossing)?;
    let (z, w) = ends_of(k, s).ok_or(Refusal::Crossing)?;
    if !some_labelling_saves(tables, p, q, r, s, x, y, z, w) {
        return Err(Refusal::Saving);
    }
    Ok(())
}
