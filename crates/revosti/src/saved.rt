// "How much is saved" for C: the answer as one signed 64-bit number.
ghost use Rattle.std.specs.Prelude.{◌≡◌};
ghost use Rattle.endian.specs.Bytes.{whole32};
ghost use Rattle.savings.specs.Saved.{exchange_saved, move_saved, three_opt_saved, Holdable};
ghost use Rattle.revosti.specs.Saved.{saved_number};

use lengths::refusal::Refused;
use savings::saved::{saved_by_exchange, saved_by_move, saved_by_three_opt};

// The refusal number alone, or 65,536 times the saving.
fn saved_number(saved: Result<i64, Refused>) -> i64
    requires { Holdable saved }
    ensures { result ≡ saved_number saved }
{
    match saved {
        Ok(saving) => 65_536 * saving,
        Err(refused) => i64::from(refused.refusal.number()),
    }
}

// The saving of exchanging the edges pq and xy.
pub fn revosti_exchange_saving(n: u32, table: &[u8], p: u16, q: u16, x: u16, y: u16) -> i64
    ensures { result ≡ saved_number (exchange_saved n (whole32 table.now) p q x y) }
{
    saved_number(saved_by_exchange(n, table, p, q, x, y))
}

// The saving of moving the point c from between x and y to between u and v.
pub fn revosti_move_saving(n: u32, table: &[u8], c: u16, x: u16, y: u16, u: u16, v: u16) -> i64
    ensures { result ≡ saved_number (move_saved n (whole32 table.now) c x y u v) }
{
    saved_number(saved_by_move(n, table, c, x, y, u, v))
}

// The saving of a crossing of the edge pq with the centres r and s, x and y the other ends of r, z and w those of s.
pub fn revosti_crossing_saving(
    n: u32,
    table: &[u8],
    p: u16,
    q: u16,
    r: u16,
    s: u16,
    x: u16,
    y: u16,
    z: u16,
    w: u16,
) -> i64
    ensures { result ≡ saved_number (three_opt_saved n (whole32 table.now) p q r s x y z w) }
{
    saved_number(saved_by_three_opt(n, table, p, q, r, s, x, y, z, w))
}
