// Each test of a call by itself: passed, or the refusal.
ghost use Rattle.std.specs.Prelude.{◌<◌, ◌≡◌, true, length};
ghost use Rattle.endian.specs.Bytes.{whole32};
ghost use Rattle.lengths.specs.Edge.{edge_count};
ghost use Rattle.marks.specs.Packed.{marks_of, well_packed};
ghost use Rattle.admission.specs.Tested.{first_failing, point_tests, size_tests};
ghost use Rattle.admission.specs.Tested.{length_tests, order_tests, mark_tests, pending_tests};

use endian::bytes::count_of;
use lengths::at_most::{all_at_most, each_at_most};
use lengths::edge;
use lengths::instance::Instance;
use lengths::refusal::Refusal;
use marks::mark;
use marks::packed::{marks_within, well_packed};

// 1: the number of points.
pub fn test_points(n: u32) -> Result<u16, Refusal>
    ensures { result ≡ first_failing n (point_tests n) }
{
    Ok(Instance::admit(n)?.points)
}

// 2: a table has a length for each edge.
pub fn test_size(points: u16, table: &[u8]) -> Result<(), Refusal>
    ensures { result ≡ first_failing tt (size_tests (length (whole32 table.now)) points) }
{
    if count_of::<u32>(table) != edge::count(points) {
        return Err(Refusal::Size);
    }
    Ok(())
}

// 5: no length of a table is above the longest.
pub fn test_lengths(table: &[u8]) -> Result<(), Refusal>
    ensures { result ≡ first_failing tt (length_tests (whole32 table.now)) }
{
    if !all_at_most(table, Instance::MOST_LENGTH) {
        return Err(Refusal::Length);
    }
    Ok(())
}

// 25: no low length is above its high one.
pub fn test_order(low: &[u8], high: &[u8]) -> Result<(), Refusal>
    requires { length (whole32 low.now) ≡ length (whole32 high.now) }
    ensures { result ≡ first_failing tt (order_tests (whole32 low.now) (whole32 high.now)) }
{
    if !each_at_most(low, high) {
        return Err(Refusal::Limits);
    }
    Ok(())
}

// 6: the packed set is one of marks of so many points.
pub fn test_marks(points: u16, marks: &[u8]) -> Result<(), Refusal>
    requires { 0 < edge_count points }
    ensures { result ≡ first_failing tt (mark_tests (marks_of points marks.now) points) }
{
    if !well_packed(points, marks) {
        return Err(Refusal::Marks);
    }
    Ok(())
}

// 20: nothing is pending in a packed set of so many points.
pub fn test_pending(points: u16, marks: &[u8]) -> Result<(), Refusal>
    requires { well_packed points marks.now ≡ true }
    ensures { result ≡ first_failing tt (pending_tests (marks_of points marks.now)) }
{
    if !marks_within(marks, mark::OPEN) {
        return Err(Refusal::SomethingPending);
    }
    Ok(())
}
