// How many edges are open.
ghost use Rattle.marks.specs.Packed.{marks_of};
ghost use Rattle.marks.specs.asks.Counting.{CountAsked, OpenIs};

use crate::mark;
use crate::mark::open_at;
use lengths::edge;

// How many of n points' edges are open.
pub fn open_edges(n: u16, set: &[u8]) -> u16
    requires { CountAsked n (marks_of n set.now) }
    ensures { OpenIs (marks_of n set.now) result }
{
    let mut opens: u16 = 0;
    for i in 0..edge::count(n) {
        if open_at(set, i, mark::OPEN) {
            opens += 1;
        }
    }
    opens
}
