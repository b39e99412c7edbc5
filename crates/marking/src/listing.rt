// The operation "list pairs": the feasible pairs of K = {ab} at c.
ghost use Rattle.std.specs.Prelude.{◌≡◌};
ghost use Rattle.endian.specs.Bytes.{whole32};
ghost use Rattle.enumeration.specs.asks.Find.{FindAsked};
ghost use Rattle.marks.specs.Packed.{marks_of};
ghost use Rattle.marking.specs.Listing.{ListedAs};
ghost use Rattle.admission.specs.asks.Tests.{Listable};
ghost use Rattle.marking.specs.asks.Listing.{ListedInto, ListedTested};

use admission::tests::test_instance;
use endian::bytes::encode16;
use enumeration::find::find_pairs;
use lengths::instance::Instance;
use lengths::refusal::{Refusal, Refused};
use lengths::two_tables::Tables;
use marks::mark;
use marks::mark::is_open;
use sheets::sheet::Closing;
use sheets::walk::points_fit;

// Lists the feasible pairs of K = {ab} at c by way of `found`, which has room for all: test 18 comes before the list is
// written.
fn list_into(
    tables: Tables,
    marks: &[u8],
    a: u16,
    b: u16,
    c: u16,
    found: &mut [u16],
    list: &mut [u8],
) -> Result<u16, Refused>
    requires { FindAsked tables.n (whole32 tables.out.now) (whole32 tables.put.now) (marks_of tables.n marks.now) a b c
        found.old }
    ensures { ListedInto tables.entry.n (whole32 tables.entry.out.now) (whole32 tables.entry.put.now)
        (marks_of tables.entry.n marks.now) a b c list.old result list.new }
{
    let count = find_pairs(tables, marks, a, b, c, found);
    let size = 2 * count as usize;
    if list.len() / 2 < size {
        return Err(Refused::from(Refusal::List));
    }
    encode16(&found[..size], list);
    Ok(count)
}

// Tests 11 and 12, which a pending edge passes, then the list, of tables and marks that passed the tests before. A
// small instance takes a small array, which is cleared sooner.
pub fn list_tested(
    tables: Tables,
    marks: &[u8],
    a: u16,
    b: u16,
    c: u16,
    list: &mut [u8],
) -> Result<u16, Refused>
    requires { Listable tables.n (whole32 tables.out.now) (whole32 tables.put.now) (marks_of tables.n marks.now) }
    ensures { ListedTested tables.entry.n (whole32 tables.entry.out.now) (whole32 tables.entry.put.now)
        (marks_of tables.entry.n marks.now) a b c list.old result list.new }
{
    let split = Closing::Split { point: c, first: 0 };
    if !points_fit(tables.n, a, b, split) {
        return Err(Refused::from(Refusal::Point));
    }
    if !is_open(tables.n, marks, a, b, mark::PENDING) {
        return Err(Refused::from(Refusal::Struck));
    }
    if tables.n <= Instance::FEW_POINTS {
        let mut found = [0u16; 2 * Instance::FEW_EDGES];
        return list_into(tables, marks, a, b, c, &mut found, list);
    }
    let mut found = [0u16; 2 * Instance::MOST_EDGES];
    list_into(tables, marks, a, b, c, &mut found, list)
}

// Lists the feasible pairs of K = {ab} at the split point c, 16 bits a point: the list's places are its whole entries.
pub fn list_pairs(
    n: u32,
    table: &[u8],
    marks: &[u8],
    a: u16,
    b: u16,
    c: u16,
    list: &mut [u8],
) -> Result<u16, Refused>
    ensures { ListedAs n (whole32 table.now) (marks_of n marks.now) a b c
        list.old result list.new }
{
    let points = test_instance(n, table, marks)?;
    let tables = Tables {
        n: points,
        out: table,
        put: table,
    };
    list_tested(tables, marks, a, b, c, list)
}
