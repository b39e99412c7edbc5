// A packed set of marks: two bits an edge, four edges a byte, the first edge in the lowest bits, unused bits 0.
ghost use Rattle.std.specs.Prelude.{◌<◌, ◌≤◌, ◌≡◌};
ghost use Rattle.lengths.specs.Edge.{edge_count};
ghost use Rattle.marks.specs.Packed.{quarter, packed_size, byte_of, well_packed};
ghost use Rattle.marks.specs.asks.Packed.{Above, SetWithin, LastAsked, unused_clear, FourMarks, PutAsked, Put};

use crate::mark;
use lengths::edge;

// How many marks a byte holds.
pub const PER_BYTE: usize = 4;

// How many bytes the packed set of n points has.
pub fn size(n: u16) -> usize
    ensures { result ≡ packed_size n }
{
    (edge::count(n) + 3) / PER_BYTE
}

// The mark in quarter j of a byte, from 0.
pub fn quarter(byte: u8, j: usize) -> u8
    requires { j < 4 }
    ensures { result ≡ quarter byte j }
{
    (byte >> (2 * j)) % 4
}

// The byte of four marks.
pub fn byte_of(a: u8, b: u8, c: u8, d: u8) -> u8
    requires { FourMarks a b c d }
    ensures { result ≡ byte_of a b c d }
{
    a + 4 * b + 16 * c + 64 * d
}

// The byte with this mark in quarter j.
pub fn put_quarter(byte: u8, j: usize, mark: u8) -> u8
    requires { PutAsked j mark }
    ensures { Put byte j mark result }
{
    let weight = 1u8 << (2 * j);
    byte - quarter(byte, j) * weight + mark * weight
}

// How many of a byte's four marks are above `most`: a mark that is gets 4 or more from what is added.
fn marks_above(byte: u8, most: u8) -> u8
    requires { most ≤ 3 }
    ensures { Above most byte result }
{
    let add = 3 - most;
    (byte % 4 + add) / 4
        + (byte / 4 % 4 + add) / 4
        + (byte / 16 % 4 + add) / 4
        + (byte / 64 % 4 + add) / 4
}

// Is no mark of the set above this one? It reads all bytes, with no early exit, so that the compiler tests several at once.
pub fn marks_within(set: &[u8], most: u8) -> bool
    requires { most ≤ 3 }
    ensures { SetWithin most set.now result }
{
    let mut within = true;
    for &byte in set {
        if 0 < marks_above(byte, most) {
            within = false;
        }
    }
    within
}

// Are the unused bits 0? They stand in the last byte.
fn unused_clear(n: u16, set: &[u8]) -> bool
    requires { LastAsked n set.now }
    ensures { result ≡ unused_clear n set.now }
{
    let last = set.len() - 1;
    let used = edge::count(n) - PER_BYTE * last;
    (set[last] as u16) >> (2 * used) == 0
}

// Test 6: the size, each mark and the unused bits of a packed set of n points.
pub fn well_packed(n: u16, set: &[u8]) -> bool
    requires { 0 < edge_count n }
    ensures { result ≡ well_packed n set.now }
{
    set.len() == size(n) && marks_within(set, mark::PENDING) && unused_clear(n, set)
}
