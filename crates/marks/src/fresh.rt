// The operation "fresh marks": every edge open.
ghost use Rattle.std.specs.Prelude.{◌<◌, ◌≡◌, length, replicate};
ghost use Rattle.marks.specs.Fresh.{FreshAs};
ghost use Rattle.marks.specs.Mark.{open_mark};
ghost use Rattle.marks.specs.Packed.{packed, packed_bytes};
ghost use Rattle.marks.specs.asks.Fresh.{open_byte};

use crate::packed;
use crate::packed::PER_BYTE;
use lengths::edge;
use lengths::instance::Instance;
use lengths::refusal::{Refusal, Refused};

// Four open edges in a byte.
const FOUR_OPEN: u8 = 0b01_01_01_01;

// The byte of open edges with so many edges left, one or more: the bits past the last edge are 0.
fn open_byte(left: usize) -> u8
    requires { 0 < left }
    ensures { result ≡ open_byte left }
{
    if PER_BYTE <= left {
        FOUR_OPEN
    } else {
        FOUR_OPEN >> (2 * (PER_BYTE - left))
    }
}

// Opens so many edges.
fn open_all(edges: usize, set: &mut [u8])
    requires { length set.old ≡ packed_bytes edges }
    ensures { set.new ≡ packed (replicate edges open_mark) }
{
    for (i, byte) in set.iter_mut().enumerate() {
        *byte = open_byte(edges - PER_BYTE * i);
    }
}

// Makes the marks of n points fresh.
pub fn fresh_marks(n: u32, set: &mut [u8]) -> Result<(), Refused>
    ensures { FreshAs n set.old result set.new }
{
    let points = Instance::admit(n)?.points;
    if set.len() != packed::size(points) {
        return Err(Refusal::Marks.into());
    }
    open_all(edge::count(points), set);
    Ok(())
}
