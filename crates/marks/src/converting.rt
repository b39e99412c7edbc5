// The operations "pack marks" and "unpack marks": between a byte set, one byte an edge, and a packed set.
ghost use Rattle.std.specs.Prelude.{◌*◌, ◌≤◌, ◌≡◌, length, get_or, take};
ghost use Rattle.marks.specs.Converting.{is_byte_set, PackedAs, UnpackedAs};
ghost use Rattle.marks.specs.Mark.{are_marks};
ghost use Rattle.marks.specs.Packed.{packed, quarters};
ghost use Rattle.marks.specs.asks.Converting.{byte_at, ByteAsked, PackAsked};

use crate::packed::{PER_BYTE, byte_of, quarter, well_packed};
use crate::{mark, packed};
use lengths::edge;
use lengths::instance::Instance;
use lengths::refusal::{Refusal, Refused};

// Is no byte above a mark? It reads all of them, with no early exit, so that the compiler compares several at once.
fn bytes_are_marks(bytes: &[u8]) -> bool
    ensures { result ≡ are_marks bytes.now }
{
    let mut are = true;
    for &byte in bytes {
        if mark::PENDING < byte {
            are = false;
        }
    }
    are
}

// Test 6 of a byte set of n points: its size, and each byte.
fn is_byte_set(n: u16, bytes: &[u8]) -> bool
    ensures { result ≡ is_byte_set n bytes.now }
{
    bytes.len() == edge::count(n) && bytes_are_marks(bytes)
}

// The mark at this place, 0 past the last.
fn mark_or_zero(bytes: &[u8], at: usize) -> u8
    ensures { result ≡ get_or bytes.now at 0 }
{
    bytes.get(at).copied().unwrap_or(0)
}

// The k-th byte of the packed set, from 0.
fn packed_byte(bytes: &[u8], k: usize) -> u8
    requires { ByteAsked bytes.now k }
    ensures { result ≡ byte_at bytes.now k }
{
    let at = PER_BYTE * k;
    let a = mark_or_zero(bytes, at);
    let b = mark_or_zero(bytes, at + 1);
    let c = mark_or_zero(bytes, at + 2);
    let d = mark_or_zero(bytes, at + 3);
    byte_of(a, b, c, d)
}

// Packs the marks.
fn pack_all(bytes: &[u8], set: &mut [u8])
    requires { PackAsked bytes.now set.old }
    ensures { set.new ≡ packed bytes.now }
{
    for (k, byte) in set.iter_mut().enumerate() {
        *byte = packed_byte(bytes, k);
    }
}

// Writes the marks of a packed set, one byte an edge.
fn unpack_all(set: &[u8], bytes: &mut [u8])
    requires { length bytes.old ≤ 4 * length set.now }
    ensures { bytes.new ≡ take (length bytes.old) (quarters set.now) }
{
    for (i, mark) in bytes.iter_mut().enumerate() {
        *mark = quarter(set[i / PER_BYTE], i % PER_BYTE);
    }
}

// Packs the byte set of n points.
pub fn pack_marks(n: u32, bytes: &[u8], set: &mut [u8]) -> Result<(), Refused>
    ensures { PackedAs n bytes.now set.old result set.new }
{
    let points = Instance::admit(n)?.points;
    if !is_byte_set(points, bytes) || set.len() != packed::size(points) {
        return Err(Refusal::Marks.into());
    }
    pack_all(bytes, set);
    Ok(())
}

// Unpacks the packed set of n points.
pub fn unpack_marks(n: u32, set: &[u8], bytes: &mut [u8]) -> Result<(), Refused>
    ensures { UnpackedAs n set.now bytes.old result bytes.new }
{
    let points = Instance::admit(n)?.points;
    if !well_packed(points, set) || bytes.len() != edge::count(points) {
        return Err(Refusal::Marks.into());
    }
    unpack_all(set, bytes);
    Ok(())
}
