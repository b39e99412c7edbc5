// What a mark is: its values, and the one reader and the one writer of a mark in a packed set, by its place.
ghost use Rattle.std.specs.Prelude.{◌*◌, ◌<◌, ◌≡◌, length};
ghost use Rattle.marks.specs.Mark.{mark_at, opens, open_at, open_up_to, mark_in};
ghost use Rattle.marks.specs.Packed.{quarters, marks_of};
ghost use Rattle.marks.specs.asks.Mark.{MarkAtAsked, MarkSet, MarkAsked, SetAsked};

use crate::packed::{PER_BYTE, put_quarter, quarter};
use lengths::edge;

// A mark is a number and no enum: sets come in as bytes of any value, which test 6 reads, and the definitions of
// specs/Mark.antt, which 01's theorems are about, speak of the numbers 0, 1 and 2.

// An edge that is struck: it is eliminated.
pub const STRUCK: u8 = 0;

// An edge that is open.
pub const OPEN: u8 = 1;

// An edge that an asked sheet strikes, until it is confirmed or withdrawn: the highest mark.
pub const PENDING: u8 = 2;

// Does this mark count as open, where marks up to `most` do? One comparison: 0 becomes the highest of all.
pub fn opens(mark: u8, most: u8) -> bool
    ensures { result ≡ opens most mark }
{
    (mark as u16 + 255) % 256 < most as u16
}

// The mark at this place of a packed set.
pub fn mark_at(set: &[u8], at: usize) -> u8
    requires { at < 4 * length set.now }
    ensures { result ≡ mark_at (quarters set.now) at }
{
    quarter(set[at / PER_BYTE], at % PER_BYTE)
}

// Writes the mark at this place of a packed set, of whatever points.
pub fn set_mark_at(set: &mut [u8], at: usize, mark: u8)
    requires { MarkAtAsked set.old at mark }
    ensures { MarkSet set.old at mark set.new }
{
    let byte = at / PER_BYTE;
    set[byte] = put_quarter(set[byte], at % PER_BYTE, mark);
}

// Is the edge at this place of a packed set open, where marks up to `most` count as open?
pub fn open_at(set: &[u8], at: usize, most: u8) -> bool
    requires { at < 4 * length set.now }
    ensures { result ≡ open_at most (quarters set.now) at }
{
    opens(mark_at(set, at), most)
}

// Is the edge ab open, where marks up to `most` count as open?
pub fn is_open(n: u16, set: &[u8], a: u16, b: u16, most: u8) -> bool
    requires { MarkAsked n (marks_of n set.now) a b }
    ensures { result ≡ open_up_to most n (marks_of n set.now) a b }
{
    open_at(set, edge::place(n, a, b), most)
}

// Writes the mark of the edge ab. A sheet writes marks by it, and nothing else.
pub fn set_mark(n: u16, set: &mut [u8], a: u16, b: u16, mark: u8)
    requires { SetAsked n (marks_of n set.old) a b mark }
    ensures { marks_of n set.new ≡ mark_in mark n (marks_of n set.old) a b }
{
    set_mark_at(set, edge::place(n, a, b), mark);
}
