// The operations "how much is saved": the savings of exchanging two edges, of moving a point and of a 3-opt closing,
// over one table. A refusal names no record.
ghost use Rattle.endian.specs.Bytes.{whole32};
ghost use Rattle.savings.specs.Saved.{exchange_saved, move_saved, three_opt_saved, SavedAs};

use crate::edges::all_edges;
use admission::tests::test_table;
use closings::saving::three_opt_saving;
use lengths::refusal::{Refusal, Refused};
use lengths::two_tables::Tables;
use rules::saving::{exchange_saving, move_saving};

// Exchanging the edges pq and xy: their sum less the larger of the two exchanges.
pub fn saved_by_exchange(
    n: u32,
    table: &[u8],
    p: u16,
    q: u16,
    x: u16,
    y: u16,
) -> Result<i64, Refused>
    ensures { SavedAs (exchange_saved n (whole32 table.now) p q x y) result }
{
    let points = test_table(n, table)?;
    if !all_edges(points, &[(p, q), (x, y)]) {
        return Err(Refused::from(Refusal::Point));
    }
    let tables = Tables {
        n: points,
        out: table,
        put: table,
    };
    Ok(exchange_saving(tables, p, q, x, y))
}

// Moving the point c from between x and y to between u and v: old less new.
pub fn saved_by_move(
    n: u32,
    table: &[u8],
    c: u16,
    x: u16,
    y: u16,
    u: u16,
    v: u16,
) -> Result<i64, Refused>
    ensures { SavedAs (move_saved n (whole32 table.now) c x y u v) result }
{
    let points = test_table(n, table)?;
    if !all_edges(points, &[(u, v), (x, c), (y, c)]) {
        return Err(Refused::from(Refusal::Point));
    }
    let tables = Tables {
        n: points,
        out: table,
        put: table,
    };
    Ok(move_saving(tables, c, x, y, u, v))
}

// A 3-opt closing by the edge pq with the centres r and s, x and y the other ends of r, z and w those of s: the best of
// its four labellings.
pub fn saved_by_three_opt(
    n: u32,
    table: &[u8],
    p: u16,
    q: u16,
    r: u16,
    s: u16,
    x: u16,
    y: u16,
    z: u16,
    w: u16,
) -> Result<i64, Refused>
    ensures { SavedAs (three_opt_saved n (whole32 table.now) p q r s x y z w) result }
{
    let points = test_table(n, table)?;
    if !all_edges(points, &[(p, q), (r, x), (s, w), (r, y), (s, z)]) {
        return Err(Refused::from(Refusal::Point));
    }
    let tables = Tables {
        n: points,
        out: table,
        put: table,
    };
    Ok(three_opt_saving(tables, p, q, r, s, x, y, z, w))
}
