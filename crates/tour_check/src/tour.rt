// The operation "check a tour".
ghost use Rattle.std.specs.Prelude.{◌≡◌, ◌≤◌};
ghost use Rattle.endian.specs.Bytes.{whole16, whole32};
ghost use Rattle.lengths.specs.Instance.{most_points};
ghost use Rattle.lengths.specs.Table.{length_of};
ghost use Rattle.sets.specs.EdgeSet.{closed_edges};
ghost use Rattle.marks.specs.Mark.{unstruck_in};
ghost use Rattle.marks.specs.Packed.{marks_of};
ghost use Rattle.rules.specs.PairTest.{every};
ghost use Rattle.tours.specs.Tour.{tour_length};
ghost use Rattle.tour_check.specs.Tour.{is_tour, CheckedAs};
ghost use Rattle.tour_check.specs.asks.Tour.{TourAsked};

use admission::tests::test_instance;
use endian::bytes::{Number, count_of};
use lengths::instance::{Instance, is_point};
use lengths::refusal::{Refusal, Refused};
use lengths::table::length_between;
use marks::mark;
use marks::mark::is_open;

// What is told of a tour: its length, and whether all its edges are open.
#[derive(Clone, Copy)]
pub struct CheckedTour {
    pub length: u64,
    pub open: bool,
}

// Is each point from 1 to n among the numbers exactly once?
fn each_once(n: u16, tour: &[u8]) -> bool
    requires { n ≤ most_points }
    ensures { result ≡ is_tour n (whole16 tour.now) }
{
    let count = count_of::<u16>(tour);
    if count != n as usize {
        return false;
    }
    let mut seen = [false; Instance::PLACES];
    for i in 0..count {
        let v = u16::number(tour, i);
        if !is_point(n, v) || seen[v as usize] {
            return false;
        }
        seen[v as usize] = true;
    }
    true
}

// The sum over the tour's edges, last to first included.
fn length_of(n: u16, table: &[u8], tour: &[u8]) -> u64
    requires { TourAsked n (whole32 table.now) (whole16 tour.now) }
    ensures { result ≡ tour_length (length_of n (whole32 table.now)) (whole16 tour.now) }
{
    let count = n as usize;
    let first = u16::number(tour, 0);
    let mut sum: u64 = 0;
    let mut from = first;
    for i in 1..count {
        let to = u16::number(tour, i);
        sum += length_between(n, table, from, to);
        from = to;
    }
    sum + length_between(n, table, from, first)
}

// Is every edge of the tour open, last to first included? A pending edge counts as open.
fn all_open(n: u16, marks: &[u8], tour: &[u8]) -> bool
    requires { TourAsked n (marks_of n marks.now) (whole16 tour.now) }
    ensures { result ≡ every (unstruck_in n (marks_of n marks.now)) (closed_edges (whole16 tour.now)) }
{
    let count = n as usize;
    let first = u16::number(tour, 0);
    let mut from = first;
    for i in 1..count {
        let to = u16::number(tour, i);
        if !is_open(n, marks, from, to, mark::PENDING) {
            return false;
        }
        from = to;
    }
    is_open(n, marks, from, first, mark::PENDING)
}

// Checks that the numbers are a tour of the n points, and answers its length and whether all its edges are open. A
// refusal names no record.
pub fn check_tour(n: u32, table: &[u8], marks: &[u8], tour: &[u8]) -> Result<CheckedTour, Refused>
    ensures { CheckedAs n (whole32 table.now) (marks_of n marks.now) (whole16 tour.now) result }
{
    let points = test_instance(n, table, marks)?;
    if !each_once(points, tour) {
        return Err(Refused::from(Refusal::Tour));
    }
    Ok(CheckedTour {
        length: length_of(points, table, tour),
        open: all_open(points, marks, tour),
    })
}
