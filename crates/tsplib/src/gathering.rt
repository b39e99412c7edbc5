// The numbers of a text into a table, 32 bits each: of each line of numbers all, or all but the first.
ghost use Rattle.std.specs.Prelude.{◌≡◌, [], ◌∷◌, drop, None};
ghost use Rattle.tsplib_lines.specs.TextLine.{line_of};
ghost use Rattle.tsplib.specs.Judging.{lines_of};
ghost use Rattle.tsplib.specs.Gathering.{numbers_of, gathered};
ghost use Rattle.tsplib.specs.asks.Gathering.{RoomFor, WroteNumbers, WroteTo, number_of, ended_by, begun_behind, taken_from};

use endian::bytes::Number;
use tsplib_lines::numbers::numbers_of;
use tsplib_lines::words::find;
use tsplib_lines::{numbers, words};

// Where the next number goes: how many are left out before, and the entry.
#[derive(Clone, Copy)]
pub struct Slot {
    pub skip: usize,
    pub at: usize,
}

// Writes one number, unless it is left out.
fn write_number(number: u32, spot: Slot, out: &mut [u8]) -> Slot
    requires { RoomFor out.old spot.at (drop spot.skip (number ∷ [])) }
    ensures { WroteTo out.old spot (number ∷ []) result out.new }
{
    if 0 < spot.skip {
        return Slot {
            skip: spot.skip - 1,
            at: spot.at,
        };
    }
    u32::put(out, spot.at, number);
    Slot {
        skip: 0,
        at: spot.at + 1,
    }
}

// Writes the number that is begun, if one is.
fn write_begun(begun: Option<u32>, spot: Slot, out: &mut [u8]) -> Slot
    requires { RoomFor out.old spot.at (drop spot.skip (number_of begun)) }
    ensures { WroteTo out.old spot (number_of begun) result out.new }
{
    match begun {
        None => spot,
        Some(number) => write_number(number, spot, out),
    }
}

// Writes the number that a byte ends, if it ends one.
fn write_ended(b: u8, begun: Option<u32>, spot: Slot, out: &mut [u8]) -> Slot
    requires { RoomFor out.old spot.at (drop spot.skip (ended_by b begun)) }
    ensures { WroteTo out.old spot (ended_by b begun) result out.new }
{
    if b != words::BLANK {
        return spot;
    }
    write_begun(begun, spot, out)
}

// The number that is begun behind a byte of numbers: the digits' lowest four bits are their values.
fn begun_behind(b: u8, begun: Option<u32>) -> Option<u32>
    ensures { result ≡ begun_behind b begun }
{
    if b == words::BLANK {
        return None;
    }
    let before = u64::from(begun.unwrap_or(0));
    Some(((10 * before + u64::from(b % 16)) % numbers::LIMIT) as u32)
}

// Writes the numbers of a text from an entry on, without the first `skip`: the next entry.
fn write_numbers(text: &[u8], skip: usize, out: &mut [u8], at: usize) -> usize
    requires { RoomFor out.old at (drop skip (taken_from None text.now)) }
    ensures { WroteNumbers out.old at (drop skip (taken_from None text.now)) result out.new }
{
    let mut begun = None;
    let mut spot = Slot { skip, at };
    for b in text {
        spot = write_ended(*b, begun, spot, out);
        begun = begun_behind(*b, begun);
    }
    write_begun(begun, spot, out).at
}

// Writes the numbers of a line, if it is numbers.
fn write_line(line: &[u8], skip: usize, out: &mut [u8], at: usize) -> usize
    requires { RoomFor out.old at (drop skip (numbers_of (line_of line.now))) }
    ensures { WroteNumbers out.old at (drop skip (numbers_of (line_of line.now))) result out.new }
{
    match numbers_of(line) {
        Some(_) => write_numbers(line, skip, out, at),
        None => at,
    }
}

// Writes the numbers of a text, without the first `skip` of each line: how many. One line a turn to its end.
pub fn gather(text: &[u8], skip: usize, out: &mut [u8]) -> usize
    requires { RoomFor out.old 0 (gathered skip (lines_of text.now)) }
    ensures { WroteNumbers out.old 0 (gathered skip (lines_of text.now)) result out.new }
{
    let mut at = 0;
    let mut rest = text;
    while let Some(end) = find(rest, words::NEWLINE) {
        at = write_line(&rest[..end], skip, out, at);
        rest = &rest[end + 1..];
    }
    at
}
