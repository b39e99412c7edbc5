// The legs at a split point: the length to each point, FAR where conditions 1 and 4 rule it out.
ghost use Rattle.std.specs.Prelude.{◌+◌, ◌*◌, ◌<◌, ◌≡◌, cond, length};
ghost use Rattle.marks.specs.Mark.{opens};
ghost use Rattle.marks.specs.Packed.{quarter, marks_of};
ghost use Rattle.rules.specs.asks.Legs.{far, OpenFrom, FourAsked, four_legs, ToByte};
ghost use Rattle.rules.specs.asks.Legs.{OpenLegs, narrowed_by, NarrowAsked, Narrowed};
ghost use Rattle.rules.specs.asks.SplitLegs.{FromSplit, BelowSplit, AboveSplit, SinglySplit, BytesSplit, LegAt};

use lengths::edge;
use lengths::instance::Instance;
use marks::mark;
use marks::mark::{open_at, opens};
use marks::packed::{PER_BYTE, quarter};

// More than any pair may cost: the leg of a point that conditions 1 and 4 rule out.
pub const FAR: u32 = 5 * Instance::MOST_LENGTH;

// The leg where K is empty of a point that is not c: the length, where its edge to c is open.
fn open_leg(opened: bool, length: u32) -> u32
    ensures { result ≡ cond opened length far }
{
    if opened {
        return length;
    }
    FAR
}

// The leg of a point whose edge to c has its mark in quarter j of a byte.
fn quarter_leg(byte: u8, j: usize, most: u8, length: u32) -> u32
    requires { j < 4 }
    ensures { result ≡ cond (opens most (quarter byte j)) length far }
{
    open_leg(opens(quarter(byte, j), most), length)
}

// The legs of four points from x on, whose edges to c have their marks in one byte and their lengths in a
// row from `from` on.
fn byte_legs(
    byte: u8,
    most: u8,
    rows: &[u32],
    from: usize,
    legs: &mut [u32; Instance::PLACES],
    x: usize,
)
    requires { FourAsked rows.now from x }
    ensures { legs.new ≡ four_legs most byte rows.now from legs.old x }
{
    let a = quarter_leg(byte, 0, most, rows[from]);
    let b = quarter_leg(byte, 1, most, rows[from + 1]);
    let c = quarter_leg(byte, 2, most, rows[from + 2]);
    let d = quarter_leg(byte, 3, most, rows[from + 3]);
    legs[x] = a;
    legs[x + 1] = b;
    legs[x + 2] = c;
    legs[x + 3] = d;
}

// The same, asked with a constant where the sheet counts OPEN alone: the compiler makes a loop of its own of that.
// Kept beside `byte_legs`: without it the loop of `open_bytes` takes 29 % more instructions; a const parameter does not
// fit, since `most` is a number that the caller hands in.
fn sheet_legs(
    byte: u8,
    most: u8,
    rows: &[u32],
    from: usize,
    legs: &mut [u32; Instance::PLACES],
    x: usize,
)
    requires { FourAsked rows.now from x }
    ensures { legs.new ≡ four_legs most byte rows.now from legs.old x }
{
    if most == mark::OPEN {
        byte_legs(byte, mark::OPEN, rows, from, legs, x);
        return;
    }
    byte_legs(byte, most, rows, from, legs, x);
}

// How many places there are before the first that begins a byte, and no more than are left.
fn to_byte(first: usize, left: usize) -> usize
    ensures { ToByte first left result }
{
    ((PER_BYTE - first % PER_BYTE) % PER_BYTE).min(left)
}

// A split point c where K is empty: marks up to `most` count as open, and the row of c stands in `rows` at `at`.
#[derive(Clone, Copy)]
struct Split<'a> {
    n: u16,
    marks: &'a [u8],
    most: u8,
    c: u16,
    rows: &'a [u32],
    at: usize,
}

impl Split<'_> {
    // The leg of x, whose edge to c has its mark at this place.
    fn leg(self, x: usize, place: usize) -> u32
        requires mark { place < 4 * length self.marks.now }
        requires row { self.at + x < length self.rows.now }
        ensures { LegAt self.entry x place result }
    {
        open_leg(
            open_at(self.marks, place, self.most),
            self.rows[self.at + x],
        )
    }

    // The legs of the points below c. `next` is one more than the place of the edge xc, which moves on by n - x - 1, and
    // `step` is n - x.
    fn open_below(self, legs: &mut [u32; Instance::PLACES])
        requires { FromSplit self legs.old 1 }
        ensures { BelowSplit self.entry legs.new self.entry.c }
    {
        let last = self.c as usize;
        let mut next = last - 1;
        let mut step = self.n as usize - 1;
        for x in 1..last {
            legs[x] = self.leg(x, next - 1);
            step -= 1;
            next += step;
        }
    }

    // The legs of the points above c, from place `from` to place `to` among them, one after the other.
    fn open_singly(self, legs: &mut [u32; Instance::PLACES], first: usize, from: usize, to: usize)
        requires { SinglySplit self legs.old first from to }
        ensures { AboveSplit self.entry legs.new first to }
    {
        let start = self.c as usize + 1;
        for i in from..to {
            legs[start + i] = self.leg(start + i, first + i);
        }
    }

    // The legs of the points above c from place `from` on, four at a time: the marks of four edges stand in one byte.
    fn open_bytes(self, legs: &mut [u32; Instance::PLACES], first: usize, from: usize, bytes: usize)
        requires { BytesSplit self legs.old first from bytes }
        ensures { AboveSplit self.entry legs.new first (from + 4 * bytes) }
    {
        let start = self.c as usize + 1;
        for k in 0..bytes {
            let i = from + PER_BYTE * k;
            let x = start + i;
            let byte = self.marks[(first + i) / PER_BYTE];
            sheet_legs(byte, self.most, self.rows, self.at + x, legs, x);
        }
    }

    // The legs of the points above c: their edges to c stand side by side, so whole bytes are read four edges at a time.
    fn open_above(self, legs: &mut [u32; Instance::PLACES])
        requires { FromSplit self legs.old (self.c + 1) }
        ensures { BelowSplit self.entry legs.new (self.entry.n + 1) }
    {
        if self.n <= self.c {
            return;
        }
        let left = self.n as usize - self.c as usize;
        let first = edge::place(self.n, self.c, self.c + 1);
        let head = to_byte(first, left);
        let bytes = (left - head) / PER_BYTE;
        self.open_singly(legs, first, 0, head);
        self.open_bytes(legs, first, head, bytes);
        self.open_singly(legs, first, head + PER_BYTE * bytes, left);
    }
}

// The legs of all points where K is empty and marks up to `most` count as open, by the row of c that stands at `at`.
// The legs lent are all FAR.
pub fn open_legs(
    n: u16,
    marks: &[u8],
    most: u8,
    c: u16,
    rows: &[u32],
    at: usize,
    legs: &mut [u32; Instance::PLACES],
)
    requires { OpenFrom most n (marks_of n marks.now) rows.now c at legs.old 1 }
    ensures { OpenLegs most n (marks_of n marks.now) rows.now c at legs.new }
{
    let split = Split {
        n,
        marks,
        most,
        c,
        rows,
        at,
    };
    split.open_below(legs);
    split.open_above(legs);
}

// The leg with an edge taken in: FAR where the leg and the edge are together longer than both exchanges.
fn narrow_leg(leg: u32, both: u32, one: u32, other: u32) -> u32
    ensures { result ≡ narrowed_by leg both one other }
{
    if both <= one.max(other) {
        return leg;
    }
    FAR
}

// Takes the edge pq into the legs of all points, by the rows of p and q, which begin at ps and qs, and the
// lengths pq, cp and cq.
pub fn narrow(
    n: u16,
    rows: &[u32],
    legs: &mut [u32; Instance::PLACES],
    ps: usize,
    qs: usize,
    pq: u32,
    cp: u32,
    cq: u32,
)
    requires { NarrowAsked n rows.now legs.old ps qs pq cp cq }
    ensures { Narrowed n rows.now legs.old ps qs pq cp cq legs.new }
{
    for x in 1..n as usize + 1 {
        let leg = legs[x];
        legs[x] = narrow_leg(leg, leg + pq, cp + rows[qs + x], cq + rows[ps + x]);
    }
}
