// "List pairs" over two tables: what is taken out counts low, what is put in counts high.
ghost use Rattle.endian.specs.Bytes.{whole32};
ghost use Rattle.marks.specs.Packed.{marks_of};
ghost use Rattle.marking.specs.ListBetween.{ListedBetweenAs};

use crate::listing::list_tested;
use admission::tests::test_between;
use lengths::refusal::Refused;
use lengths::two_tables::Tables;

// Lists the feasible pairs of K = {ab} at the split point c: tests 1, 2, 5, 25, 6, 11, 12 and 18, then the list.
pub fn list_between(
    n: u32,
    low: &[u8],
    high: &[u8],
    marks: &[u8],
    a: u16,
    b: u16,
    c: u16,
    list: &mut [u8],
) -> Result<u16, Refused>
    ensures { ListedBetweenAs n (whole32 low.now) (whole32 high.now)
        (marks_of n marks.now) a b c list.old result list.new }
{
    let points = test_between(n, low, high, marks)?;
    let tables = Tables {
        n: points,
        out: low,
        put: high,
    };
    list_tested(tables, marks, a, b, c, list)
}
