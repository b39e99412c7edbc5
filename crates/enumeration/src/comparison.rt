// The one comparison of a pair at a split point.
ghost use Rattle.endian.specs.Bytes.{whole32};
ghost use Rattle.lengths.specs.Table.{Lengths};
ghost use Rattle.search.specs.asks.Split.{Bounded};

use lengths::instance::Instance;

// What it reads: a pair passes where its points' legs and MOST_LENGTH together are at most its length in the table, which
// is of what is put in, and the bound. Legs and bound are those of K at the split point.
#[derive(Clone, Copy)]
pub struct Comparison<'a> {
    pub n: u16,
    pub table: &'a [u8],
    pub legs: &'a [u32; Instance::PLACES],
    pub bound: u32,
    pub ghost lengths: { Lengths n (whole32 table.now) },
    pub ghost bounded: { Bounded legs.now bound },
}
