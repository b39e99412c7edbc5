// How much a 3-opt closing saves (02, Paper 5), by a table of what is taken out and a table
// of what is put in.
ghost use Rattle.std.specs.Prelude.{◌≡◌};
ghost use Rattle.endian.specs.Bytes.{whole32};
ghost use Rattle.lengths.specs.TwoTables.{taken_out, put_in};
ghost use Rattle.closings.specs.Closing.{first_saving, label_saving, three_opt_saving};
ghost use Rattle.closings.specs.asks.ClosingTest.{Labelled, MoveAsked};

use lengths::saving::saving;
use lengths::sums::length_of_three;
use lengths::two_tables::Tables;

// The saving of a labelling's first move: rs, px, qw for pq, rx, sw. The second, rs, pz, qy for pq, ry, sz, is the
// first by other names: q, p, r, s, y, z.
#[tactic(auto, unfolding(crate::specs::Closing::first_saving))]
pub fn first_saving(tables: Tables, p: u16, q: u16, r: u16, s: u16, x: u16, w: u16) -> i64
    requires { MoveAsked tables.n (whole32 tables.out.now) p q r s x w × MoveAsked tables.n (whole32 tables.put.now) p q r s x w }
    ensures { result ≡ first_saving (taken_out tables.entry) (put_in tables.entry) p q r s x w }
{
    saving(
        length_of_three(tables.n, tables.out, p, q, r, x, s, w),
        length_of_three(tables.n, tables.put, r, s, p, x, q, w),
    )
}

// The saving by one labelling: the smaller of its two moves'.
#[tactic(auto, using(lengths::proofs::SignedSavings::kept, crate::proofs::Savings::second_is), unfolding(crate::specs::Closing::label_saving))]
fn label_saving(
    tables: Tables,
    p: u16,
    q: u16,
    r: u16,
    s: u16,
    x: u16,
    y: u16,
    z: u16,
    w: u16,
) -> i64
    requires { Labelled tables.n (whole32 tables.out.now) p q r s x y z w × Labelled tables.n (whole32 tables.put.now) p q r s x y z w }
    ensures { result ≡ label_saving (taken_out tables.entry) (put_in tables.entry) p q r s x y z w }
{
    let first = first_saving(tables, p, q, r, s, x, w);
    first.min(first_saving(tables, q, p, r, s, y, z))
}

// The best of the four labellings: x, y swapped or not, z, w swapped or not.
#[tactic(auto, using(lengths::proofs::SignedSavings::kept), unfolding(crate::specs::Closing::three_opt_saving))]
pub fn three_opt_saving(
    tables: Tables,
    p: u16,
    q: u16,
    r: u16,
    s: u16,
    x: u16,
    y: u16,
    z: u16,
    w: u16,
) -> i64
    requires { Labelled tables.n (whole32 tables.out.now) p q r s x y z w × Labelled tables.n (whole32 tables.put.now) p q r s x y z w }
    ensures { result ≡ three_opt_saving (taken_out tables.entry) (put_in tables.entry) p q r s x y z w }
{
    let as_named = label_saving(tables, p, q, r, s, x, y, z, w);
    let s_swapped = label_saving(tables, p, q, r, s, x, y, w, z);
    let r_swapped = label_saving(tables, p, q, r, s, y, x, z, w);
    let both_swapped = label_saving(tables, p, q, r, s, y, x, w, z);
    as_named.max(s_swapped.max(r_swapped.max(both_swapped)))
}
