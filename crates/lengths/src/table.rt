// Tables of lengths: one 32-bit length an edge, in 01's order, as little-endian bytes.
ghost use Rattle.endian.specs.Bytes.{whole32};
ghost use Rattle.lengths.specs.asks.Table.{Spans, LengthIs};

use crate::edge;
use endian::bytes::Number;

// The length between a and b by the table of n points: 0 from a point to itself.
pub fn length_between(n: u16, table: &[u8], a: u16, b: u16) -> u64
    requires { Spans n (whole32 table.now) a b }
    ensures { LengthIs n (whole32 table.now) a b result }
{
    if a == b {
        return 0;
    }
    let at = edge::place(n, a, b);
    u64::from(u32::number(table, at))
}
