// How much the exchange of two edges and the move of a point save (02, Paper 5), by the tables of what is taken out and
// of what is put in.
ghost use Rattle.std.specs.Prelude.{◌≡◌};
ghost use Rattle.endian.specs.Bytes.{whole32};
ghost use Rattle.lengths.specs.TwoTables.{taken_out, put_in};
ghost use Rattle.lengths.specs.asks.Sums.{TwoEdges, ThreeEdges};
ghost use Rattle.rules.specs.Pair.{exchange_saving, move_saving};

use lengths::saving::saving;
use lengths::sums::{length_of_three, length_of_two};
use lengths::two_tables::Tables;

// Exchanging the edges pq and xy: their sum less the larger of the two exchanges, px and qy, or py and qx.
pub fn exchange_saving(tables: Tables, p: u16, q: u16, x: u16, y: u16) -> i64
    requires { TwoEdges tables.n (whole32 tables.out.now) p q x y × TwoEdges tables.n (whole32 tables.put.now) p q x y }
    ensures { result ≡ exchange_saving (taken_out tables.entry) (put_in tables.entry) p q x y }
{
    let straight = length_of_two(tables.n, tables.put, p, x, q, y);
    let crossed = length_of_two(tables.n, tables.put, p, y, q, x);
    saving(
        length_of_two(tables.n, tables.out, p, q, x, y),
        straight.max(crossed),
    )
}

// Moving the point c from between x and y to between u and v: uv, xc and yc give way to xy, uc and vc.
pub fn move_saving(tables: Tables, c: u16, x: u16, y: u16, u: u16, v: u16) -> i64
    requires { ThreeEdges tables.n (whole32 tables.out.now) u v x c y c × ThreeEdges tables.n (whole32 tables.put.now) u v x c y c }
    ensures { result ≡ move_saving (taken_out tables.entry) (put_in tables.entry) c x y u v }
{
    saving(
        length_of_three(tables.n, tables.out, u, v, x, c, y, c),
        length_of_three(tables.n, tables.put, x, y, u, c, v, c),
    )
}
