// The feasible pairs of K = {ab} at c, all of them: row by row, or those of one point at an end of the edge.
ghost use Rattle.std.specs.Prelude.{◌&&◌, not, ◌≡◌, eqb, leb};
ghost use Rattle.endian.specs.Bytes.{whole32};
ghost use Rattle.lengths.specs.Edge.{edges};
ghost use Rattle.marks.specs.Packed.{marks_of};
ghost use Rattle.rules.specs.Pairs.{keep};
ghost use Rattle.enumeration.specs.Find.{pairs_at};
ghost use Rattle.enumeration.specs.asks.Find.{ones, barred_in, apart_by, end_by, RowToList, RowFound};
ghost use Rattle.enumeration.specs.asks.Find.{RowsToList, RowsFound, EndAsked, FindAsked, Found};

use crate::comparison::Comparison;
use endian::bytes::Number;
use lengths::edge;
use lengths::instance::Instance;
use lengths::table::length_between;
use lengths::two_tables::Tables;
use rules::legs;
use search::split::prepare_single;
use sets::edge_set::EdgeSet;

// 1 where the pair is kept: its cost is at most what it may be, and z is not barred.
fn kept(cost: u32, most: u32, z: usize, barred: usize) -> u16
    ensures { result ≡ ones (leb cost most && not (eqb z barred)) }
{
    ((cost <= most) & (z != barred)) as u16
}

// The point that is barred in the row of x: the edges c-low, c-high and low-high would be a cycle of three.
fn barred_in(low: u16, high: u16, x: u16) -> Option<u16>
    ensures { result ≡ barred_in low high x }
{
    if x == low {
        return Some(high);
    }
    None
}

impl Comparison<'_> {
    // Writes the pairs of x with the points above it behind the pairs that are there already, and answers how
    // many there are then. Each pair is written first and counted only if it stands, so that no branch depends on it. Where
    // c-x is no leg, no pair of x stands.
    fn find_in_row(&self, x: u16, barred: Option<u16>, found: &mut [u16], before: u16) -> u16
        requires { RowToList self.now.n x found.old before }
        ensures { RowFound self.now x barred found.old before result found.new }
    {
        let legs = self.legs;
        let leg = legs[x as usize];
        if leg == legs::FAR {
            return before;
        }
        let cost = leg + Instance::MOST_LENGTH;
        let first = edge::place(self.n, x, x + 1);
        let start = x as usize + 1;
        let left = self.n as usize - x as usize;
        let table = self.table;
        let bound = self.bound;
        // No point has the number 0: as a number, the barred point costs the loop one comparison and no branch.
        let skip = barred.unwrap_or(0) as usize;
        let mut count = before;
        for i in 0..left {
            let at = 2 * count as usize;
            let z = start + i;
            found[at] = x;
            found[at + 1] = z as u16;
            count += kept(
                cost + legs[z],
                u32::number(table, first + i) + bound,
                z,
                skip,
            );
        }
        count
    }

    // Writes the feasible pairs at a point apart from K's edge, whose ends are low and high, row by row, and answers
    // how many there are.
    fn find_apart(&self, low: u16, high: u16, found: &mut [u16]) -> u16
        requires { RowsToList self.now.n found.old }
        ensures { Found (keep (apart_by self.now low high) (edges self.now.n))
            result found.new }
    {
        let mut count: u16 = 0;
        for x in 1..self.n {
            count = self.find_in_row(x, barred_in(low, high, x), found, count);
        }
        count
    }

    // Writes the pairs of `other` with the points below it that pass the one comparison, and answers how many there are.
    fn find_below(&self, other: u16, found: &mut [u16]) -> u16
        requires { EndAsked self.now.n other found.old }
        ensures { RowsFound self.now.n (end_by self.now other)
            found.old found.new other result }
    {
        let legs = self.legs;
        let bound = self.bound;
        let cost = legs[other as usize] + Instance::MOST_LENGTH;
        let mut count: u16 = 0;
        for x in 1..other {
            let length = length_between(self.n, self.table, x, other) as u32;
            let at = 2 * count as usize;
            found[at] = x;
            found[at + 1] = other;
            count += kept(cost + legs[x as usize], length + bound, other as usize, 0);
        }
        count
    }

    // Writes the feasible pairs at an end of K's edge, and answers how many there are: `other`, the other end, is
    // one point of each.
    fn find_at_end(&self, other: u16, found: &mut [u16]) -> u16
        requires { EndAsked self.now.n other found.old }
        ensures { Found (keep (end_by self.now other) (edges self.now.n))
            result found.new }
    {
        let count = self.find_below(other, found);
        if other < self.n {
            return self.find_in_row(other, None, found, count);
        }
        count
    }
}

// Writes the feasible pairs of K = {ab} at c, x then y for each, and answers how many there are. What is taken out is
// measured by `tables.out`, what is put in by `tables.put`; the search in the rows reads the latter alone.
pub fn find_pairs(tables: Tables, marks: &[u8], a: u16, b: u16, c: u16, found: &mut [u16]) -> u16
    requires { FindAsked tables.n (whole32 tables.out.now) (whole32 tables.put.now) (marks_of tables.n marks.now) a b c found.old }
    ensures { Found (pairs_at tables.entry.n (whole32 tables.entry.out.now) (whole32 tables.entry.put.now)
        (marks_of tables.entry.n marks.now) a b c)
        result found.new }
{
    let k = EdgeSet::single(a, b);
    let mut legs = [legs::FAR; Instance::PLACES];
    let bound = prepare_single(tables, marks, k, c, &mut legs);
    let by = Comparison {
        n: tables.n,
        table: tables.put,
        legs: &legs,
        bound,
    };
    if c == a {
        return by.find_at_end(b, found);
    }
    if c == b {
        return by.find_at_end(a, found);
    }
    if a < b {
        return by.find_apart(a, b, found);
    }
    by.find_apart(b, a, found)
}
