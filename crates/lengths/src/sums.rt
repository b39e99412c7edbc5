// Sums of two and of three lengths.
ghost use Rattle.std.specs.Prelude.{◌+◌};
ghost use Rattle.endian.specs.Bytes.{whole32};
ghost use Rattle.lengths.specs.Table.{length_in};
ghost use Rattle.lengths.specs.asks.Sums.{TwoEdges, ThreeEdges, SumIs};

use crate::table::length_between;

// The length of the edges ab and cd together.
pub fn length_of_two(n: u16, table: &[u8], a: u16, b: u16, c: u16, d: u16) -> u64
    requires { TwoEdges n (whole32 table.now) a b c d }
    ensures { SumIs (length_in n table.now a b + length_in n table.now c d) result }
{
    length_between(n, table, a, b) + length_between(n, table, c, d)
}

// The length of the edges ab, cd and ef together.
pub fn length_of_three(n: u16, table: &[u8], a: u16, b: u16, c: u16, d: u16, e: u16, f: u16) -> u64
    requires { ThreeEdges n (whole32 table.now) a b c d e f }
    ensures { SumIs (length_in n table.now a b + length_in n table.now c d + length_in n table.now e f) result }
{
    length_between(n, table, a, b) + length_between(n, table, c, d) + length_between(n, table, e, f)
}
