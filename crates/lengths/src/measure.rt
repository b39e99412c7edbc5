// The operation "measure": coordinates into a table of lengths, both little-endian bytes.
ghost use Rattle.std.specs.Prelude.{◌≡◌};
ghost use Rattle.endian.specs.Bytes.{bytes32, whole32};
ghost use Rattle.lengths.specs.Measure.{measured_table, MeasuredAs};
ghost use Rattle.lengths.specs.asks.Measure.{Located, distance_to, Fillable, RowToMeasure, RowMeasured};

use crate::at_most::all_at_most;
use crate::distance::{Rule, gap_distance};
use crate::edge;
use crate::instance::Instance;
use crate::refusal::{Refusal, Refused};
use endian::bytes::{Number, count_of};

// The distance from the point with the coordinates x and y to the point b.
fn distance_to(rule: Rule, x: u32, y: u32, coordinates: &[u8], b: usize) -> u32
    requires { Located (whole32 coordinates.now) x y b }
    ensures { result ≡ distance_to rule x y (whole32 coordinates.now) b }
{
    let i = 2 * (b - 1);
    let dx = x.abs_diff(u32::number(coordinates, i));
    let dy = y.abs_diff(u32::number(coordinates, i + 1));
    gap_distance(rule, dx as u64, dy as u64) as u32
}

// Writes the distances from a to the points above it, from the place `at` on, by a rule. It is compiled into each caller:
// by a rule of the gaps the loop is short enough for the compiler to measure several edges at a time.
#[inline(always)]
fn row_by(n: usize, rule: Rule, coordinates: &[u8], table: &mut [u8], a: usize, at: usize)
    requires { RowToMeasure n (whole32 coordinates.now) table.old a at }
    ensures { RowMeasured n rule (whole32 coordinates.now) a at table.old table.new }
{
    let x = u32::number(coordinates, 2 * (a - 1));
    let y = u32::number(coordinates, 2 * (a - 1) + 1);
    for i in 0..n - a {
        u32::put(
            table,
            at + i,
            distance_to(rule, x, y, coordinates, a + i + 1),
        );
    }
}

// The same, by a loop for each rule: each arm names its rule, so that its loop is compiled for that one alone.
fn measure_row(n: usize, rule: Rule, coordinates: &[u8], table: &mut [u8], a: usize, at: usize)
    requires { RowToMeasure n (whole32 coordinates.now) table.old a at }
    ensures { RowMeasured n rule (whole32 coordinates.now) a at table.old table.new }
{
    match rule {
        Rule::Rooted(root) => row_by(n, Rule::Rooted(root), coordinates, table, a, at),
        Rule::Man2d => row_by(n, Rule::Man2d, coordinates, table, a, at),
        Rule::Max2d => row_by(n, Rule::Max2d, coordinates, table, a, at),
    }
}

// Writes the distance of each edge to its place, row by row.
fn fill(n: u16, rule: Rule, coordinates: &[u8], table: &mut [u8])
    requires { Fillable n (whole32 coordinates.now) table.old }
    ensures { table.new ≡ bytes32 (measured_table rule (whole32 coordinates.now) n) }
{
    let points = n as usize;
    let mut at = 0;
    for a in 1..points {
        measure_row(points, rule, coordinates, table, a, at);
        at += points - a;
    }
}

// Fills the table of n points with their distances by the rule, from the coordinates x and y of point 1, then of 2, and
// on.
pub fn measure(n: u32, rule: u32, coordinates: &[u8], table: &mut [u8]) -> Result<(), Refused>
    ensures { MeasuredAs n rule (whole32 coordinates.now) table.old result table.new }
{
    let points = Instance::admit(n)?.points;
    if count_of::<u32>(coordinates) != 2 * (points as usize)
        || count_of::<u32>(table) != edge::count(points)
    {
        return Err(Refusal::Size.into());
    }
    let rule = Rule::try_from(rule)?;
    if !all_at_most(coordinates, Instance::MOST_COORDINATE) {
        return Err(Refusal::Coordinate.into());
    }
    fill(points, rule, coordinates, table);
    Ok(())
}
