// The whole text for an input: the file's tests, measuring, marking, and the lines.
ghost use Rattle.std.specs.Prelude.{◌≡◌};
ghost use Rattle.endian.specs.Bytes.{whole16, whole32};
ghost use Rattle.marks.specs.Fresh.{fresh_marks};
ghost use Rattle.marks.specs.Packed.{marks_of};
ghost use Rattle.marking.specs.Mark.{mark_sheet};
ghost use Rattle.text.specs.Words.{Wrote};
ghost use Rattle.report.specs.Header.{coordinates_in, records_in};
ghost use Rattle.report.specs.Report.{marked_text, measured_text, Reported};
ghost use Rattle.report.specs.asks.Lines.{told};
ghost use Rattle.report.specs.asks.Report.{MarkingAsked, InstanceAsked, Places};

use crate::header::Header;
use crate::lines::{put_all, put_refusal};
use lengths::edge;
use lengths::instance::Instance;
use lengths::measure::measure;
use lengths::refusal::NO_RECORD;
use marking::mark::mark_sheet;
use marks::fresh::fresh_marks;
use marks::packed;
use marks::packed::PER_BYTE;
use sheets::verdict::Verdict;

// Room for every text: MOST_EDGES lines of at most 15 bytes, and two more.
pub const TEXT: usize = 262_144;

// The bytes of the packed set of most points.
const MOST_SET: usize = (Instance::MOST_EDGES + 3) / PER_BYTE;

// What the last line tells of a verdict: the number of the refusal and its record, 0 and 0 where all was accepted.
fn told(verdict: Verdict) -> (u8, u16)
    ensures { result ≡ told verdict }
{
    match verdict {
        Ok(_) => (0, NO_RECORD),
        Err(stopped) => (stopped.refused.refusal.number(), stopped.refused.at),
    }
}

// The text of the records: marks them from fresh marks on, which a set of the right size is never refused, and writes
// all lines.
fn mark_records(n: u16, table: &[u8], records: &[u8], marks: &mut [u8], out: &mut [u8]) -> usize
    requires { MarkingAsked n marks.old out.old }
    ensures { Wrote out.old 0
        (marked_text n (mark_sheet n (whole32 table.now) (fresh_marks n) (whole16 records.now)))
        result out.new }
{
    fresh_marks(n as u32, marks).unwrap();
    let verdict = mark_sheet(n as u32, table, marks, records);
    let (number, rec) = told(verdict);
    put_all(n, number, rec, marks, out)
}

// The text of an instance whose header was read: measures it, and goes on with its records.
fn measure_file(
    rule: u32,
    n: u16,
    file: &[u8],
    table: &mut [u8],
    marks: &mut [u8],
    out: &mut [u8],
) -> usize
    requires instance_asked { InstanceAsked n file.now out.old }
    requires places { Places n table.old marks.old }
    ensures { Wrote out.old 0
        (measured_text rule n (coordinates_in n file.now) (records_in n file.now)) result out.new }
{
    let body = Header::BYTES + Header::POINT_BYTES * (n as usize);
    match measure(n as u32, rule, &file[Header::BYTES..body], table) {
        Ok(()) => mark_records(n, table, &file[body..], marks, out),
        Err(refused) => put_refusal(refused.refusal.number(), out),
    }
}

// The same, with places for its lengths and marks.
fn report_instance(rule: u32, n: u16, file: &[u8], out: &mut [u8]) -> usize
    requires { InstanceAsked n file.now out.old }
    ensures { Wrote out.old 0
        (measured_text rule n (coordinates_in n file.now) (records_in n file.now)) result out.new }
{
    let mut table = [0u8; 4 * Instance::MOST_EDGES];
    let mut marks = [0u8; MOST_SET];
    let bytes = 4 * edge::count(n);
    let size = packed::size(n);
    measure_file(rule, n, file, &mut table[..bytes], &mut marks[..size], out)
}

// Writes the text for the bytes of an input, and answers how long it is.
pub fn report(file: &[u8], out: &mut [u8; TEXT]) -> usize
    ensures { Reported file.now out.old result out.new }
{
    match Header::read(file) {
        Ok(header) => report_instance(header.rule, header.points, file, out),
        Err(refusal) => put_refusal(refusal.number(), out),
    }
}
