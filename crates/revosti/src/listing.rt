// "List pairs" for C: the answer as one 64-bit number.
ghost use Rattle.endian.specs.Bytes.{whole32};
ghost use Rattle.marks.specs.Packed.{marks_of};
ghost use Rattle.revosti.specs.Listing.{ListedInC};

use crate::outcome::counted_number;
use marking::listing::list_pairs;

// Lists the feasible pairs of K = {ab} at the split point c, 16 bits a point. The list's places are its whole entries.
pub fn revosti_list_pairs(
    n: u32,
    table: &[u8],
    marks: &[u8],
    a: u16,
    b: u16,
    c: u16,
    list: &mut [u8],
) -> u64
    ensures { ListedInC n (whole32 table.now) (marks_of n marks.now) a b c
        list.old result list.new }
{
    counted_number(list_pairs(n, table, marks, a, b, c, list))
}
