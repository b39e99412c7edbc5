// "Check a tour" for C: the answer as one 64-bit number.
ghost use Rattle.std.specs.Prelude.{◌≡◌};
ghost use Rattle.tour_check.specs.Tour.{Countable};
ghost use Rattle.revosti.specs.Tour.{checked_number, tour_in_c};

use lengths::refusal::Refused;
use tour_check::tour::{CheckedTour, check_tour};

// The refusal number alone, or 65,536 times the length, plus 256 if all edges are open.
fn checked_number(checked: Result<CheckedTour, Refused>) -> u64
    requires { Countable checked }
    ensures { result ≡ checked_number checked }
{
    match checked {
        Ok(told) => 65_536 * told.length + if told.open { 256 } else { 0 },
        Err(refused) => u64::from(refused.refusal.number()),
    }
}

// Checks a tour. The table has 32 bits an edge, the tour 16 bits a point.
pub fn revosti_check_tour(n: u32, table: &[u8], marks: &[u8], tour: &[u8]) -> u64
    ensures { result ≡ tour_in_c n table.now marks.now tour.now }
{
    checked_number(check_tour(n, table, marks, tour))
}
