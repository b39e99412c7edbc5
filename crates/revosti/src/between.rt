// "Mark a sheet" and "list pairs" over two tables for C: the answer as one 64-bit number. The tables have 32 bits an
// edge, low lengths first.
ghost use Rattle.endian.specs.Bytes.{whole32};
ghost use Rattle.marks.specs.Packed.{marks_of};
ghost use Rattle.revosti.specs.Between.{MarkedBetweenInC, ListedBetweenInC};

use crate::mark::marked_number;
use crate::outcome::counted_number;
use marking::list_between::list_between;
use marking::mark_between::mark_between;

// Marks a sheet: what is taken out counts low, what is put in counts high.
pub fn revosti_mark_between(n: u32, low: &[u8], high: &[u8], marks: &mut [u8], sheet: &[u8]) -> u64
    ensures { MarkedBetweenInC n low.now high.now marks.old
        sheet.now result marks.new }
{
    marked_number(mark_between(n, low, high, marks, sheet))
}

// Lists the feasible pairs of K = {ab} at the split point c, 16 bits a point. The list's places are its whole entries.
pub fn revosti_list_between(
    n: u32,
    low: &[u8],
    high: &[u8],
    marks: &[u8],
    a: u16,
    b: u16,
    c: u16,
    list: &mut [u8],
) -> u64
    ensures { ListedBetweenInC n (whole32 low.now) (whole32 high.now)
        (marks_of n marks.now) a b c list.old result list.new }
{
    counted_number(list_between(n, low, high, marks, a, b, c, list))
}
