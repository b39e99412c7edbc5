// The program's lines, each into a buffer at a place; each answers the next place.
ghost use Rattle.std.specs.Prelude.{◌≤◌};
ghost use Rattle.lengths.specs.Instance.{most_points};
ghost use Rattle.marks.specs.Packed.{marks_of};
ghost use Rattle.text.specs.Words.{Room, Wrote};
ghost use Rattle.report.specs.Lines.{points_line, struck_line, mark_line, struck_lines, verdict_line, last_line, all_lines};
ghost use Rattle.report.specs.asks.Lines.{Large, StrikesAsked, LinesAsked};

use lengths::edge;
use lengths::edge::{NextEdge, following};
use lengths::refusal::NO_RECORD;
use marks::counting::open_edges;
use marks::mark;
use marks::mark::open_at;
use text::decimal::put_field;
use text::words::put_word;

// Line one: n and the edge count.
fn put_points(n: u16, out: &mut [u8], at: usize) -> usize
    requires { (n ≤ most_points) × Room out.old at (points_line n) }
    ensures { Wrote out.old at (points_line n) result out.new }
{
    let edges = edge::count(n) as u32;
    let mut next = put_field(b"points ", n as u32, out, at);
    next = put_field(b" edges ", edges, out, next);
    put_word(b"\n", out, next)
}

// The line of a strike, whose lower point is a.
fn put_struck(a: u32, b: u32, out: &mut [u8], at: usize) -> usize
    requires { Room out.old at (struck_line a b) }
    ensures { Wrote out.old at (struck_line a b) result out.new }
{
    let mut next = put_field(b"struck ", a, out, at);
    next = put_field(b" ", b, out, next);
    put_word(b"\n", out, next)
}

// The line of the edge ab: none if it is open.
fn put_mark(opened: bool, a: u32, b: u32, out: &mut [u8], at: usize) -> usize
    requires { Room out.old at (mark_line opened a b) }
    ensures { Wrote out.old at (mark_line opened a b) result out.new }
{
    if opened {
        at
    } else {
        put_struck(a, b, out, at)
    }
}

// The lines of the strikes, in edge order.
fn put_strikes(n: u16, marks: &[u8], out: &mut [u8], at: usize) -> usize
    requires { StrikesAsked n (marks_of n marks.now) out.old at }
    ensures { Wrote out.old at (struck_lines n (marks_of n marks.now)) result out.new }
{
    let points = n as usize;
    let mut edge = NextEdge { low: 1, high: 2 };
    let mut next = at;
    for i in 0..edge::count(n) {
        let opened = open_at(marks, i, mark::OPEN);
        next = put_mark(opened, edge.low as u32, edge.high as u32, out, next);
        edge = following(points, edge.low, edge.high);
    }
    next
}

// The last line: refusal number or 0, its record or 0, edges open.
fn put_verdict(number: u8, rec: u16, opens: u16, out: &mut [u8], at: usize) -> usize
    requires { Room out.old at (verdict_line number rec opens) }
    ensures { Wrote out.old at (verdict_line number rec opens) result out.new }
{
    let mut next = put_field(b"verdict ", number as u32, out, at);
    next = put_field(b" record ", rec as u32, out, next);
    next = put_field(b" open ", opens as u32, out, next);
    put_word(b"\n", out, next)
}

// Only the last line, with open 0. The number is any byte.
pub fn put_refusal(number: u8, out: &mut [u8]) -> usize
    requires { Large out.old }
    ensures { Wrote out.old 0 (last_line number) result out.new }
{
    put_verdict(number, NO_RECORD, 0, out, 0)
}

// All lines, the last with any number and any record.
pub fn put_all(n: u16, number: u8, rec: u16, marks: &[u8], out: &mut [u8]) -> usize
    requires { LinesAsked n (marks_of n marks.now) out.old }
    ensures { Wrote out.old 0 (all_lines n number rec (marks_of n marks.now)) result out.new }
{
    let opens = open_edges(n, marks);
    let mut next = put_points(n, out, 0);
    next = put_strikes(n, marks, out, next);
    put_verdict(number, rec, opens, out, next)
}
