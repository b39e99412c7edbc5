// The tests that the operations share, in 01's order: the first that fails decides, else the number of points is answered.
ghost use Rattle.std.specs.Prelude.{◌≡◌, length};
ghost use Rattle.endian.specs.Bytes.{whole32};
ghost use Rattle.marks.specs.Packed.{marks_of};
ghost use Rattle.admission.specs.Tests.{tested_table, places_tested, tested, ready, tested_intervals, tested_between, ready_between};

use crate::tested::{test_lengths, test_marks, test_order, test_pending, test_points, test_size};
use lengths::refusal::Refusal;

// 1, 2 and 5: the number of points, the table's size and its lengths.
pub fn test_table(n: u32, table: &[u8]) -> Result<u16, Refusal>
    ensures { result ≡ tested_table n (whole32 table.now) }
{
    let points = test_points(n)?;
    test_size(points, table)?;
    test_lengths(table)?;
    Ok(points)
}

// 1, 2 and 6: there are lengths and marks to be read into.
pub fn test_places(n: u32, table: &[u8], marks: &[u8]) -> Result<u16, Refusal>
    ensures { result ≡ places_tested n (length (whole32 table.now)) (marks_of n marks.now) }
{
    let points = test_points(n)?;
    test_size(points, table)?;
    test_marks(points, marks)?;
    Ok(points)
}

// 1, 2, 5 and 6: the table, and the packed set of marks.
pub fn test_instance(n: u32, table: &[u8], marks: &[u8]) -> Result<u16, Refusal>
    ensures { result ≡ tested n (whole32 table.now) (marks_of n marks.now) }
{
    let points = test_table(n, table)?;
    test_marks(points, marks)?;
    Ok(points)
}

// 1, 2, 5, 6 and 20: nothing is pending.
pub fn test_ready(n: u32, table: &[u8], marks: &[u8]) -> Result<u16, Refusal>
    ensures { result ≡ ready n (whole32 table.now) (marks_of n marks.now) }
{
    let points = test_instance(n, table, marks)?;
    test_pending(points, marks)?;
    Ok(points)
}

// 1, 2, 5 and 25, over two tables: each table's size, then its lengths, and no low length above its high one.
pub fn test_intervals(n: u32, low: &[u8], high: &[u8]) -> Result<u16, Refusal>
    ensures { result ≡ tested_intervals n (whole32 low.now) (whole32 high.now) }
{
    let points = test_points(n)?;
    test_size(points, low)?;
    test_size(points, high)?;
    test_lengths(low)?;
    test_lengths(high)?;
    test_order(low, high)?;
    Ok(points)
}

// 1, 2, 5, 25 and 6, over two tables.
pub fn test_between(n: u32, low: &[u8], high: &[u8], marks: &[u8]) -> Result<u16, Refusal>
    ensures { result ≡ tested_between n (whole32 low.now) (whole32 high.now)
        (marks_of n marks.now) }
{
    let points = test_intervals(n, low, high)?;
    test_marks(points, marks)?;
    Ok(points)
}

// 1, 2, 5, 25, 6 and 20, over two tables.
pub fn test_between_ready(n: u32, low: &[u8], high: &[u8], marks: &[u8]) -> Result<u16, Refusal>
    ensures { result ≡ ready_between n (whole32 low.now) (whole32 high.now)
        (marks_of n marks.now) }
{
    let points = test_between(n, low, high, marks)?;
    test_pending(points, marks)?;
    Ok(points)
}
