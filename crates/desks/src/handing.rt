// Opening the desks, and handing in a sheet at one of them.
ghost use Rattle.std.specs.Prelude.{◌≡◌};
ghost use Rattle.endian.specs.Bytes.{whole16, whole32};
ghost use Rattle.marks.specs.Packed.{marks_of};
ghost use Rattle.desks.specs.HandIn.{OpenedAs, is_desk, HandedInAs};

use crate::state::{DESKS, STATE_BYTES, has_line, set_desk};
use endian::bytes::encode16;
use lengths::refusal::Refusal;
use marking::mark::test_sheet;

// Opens the desks: no desk has a line left, and none was served.
pub fn open_desks(desks: &mut [u8]) -> Result<(), Refusal>
    ensures { OpenedAs desks.old result desks.new }
{
    if desks.len() < STATE_BYTES {
        return Err(Refusal::Buffer);
    }
    let numbers = [0u16; STATE_BYTES / 2];
    encode16(&numbers, desks);
    Ok(())
}

// Is this the number of a desk?
#[tactic(auto, unfolding(crate::specs::HandIn::is_desk))]
fn is_desk(desk: u32) -> bool
    ensures { result ≡ is_desk desk }
{
    1 <= desk && desk <= DESKS as u32
}

// Hands in a sheet at a desk: tests 22, 28 and 29, then those of the sheet. Its first line then waits for a turn.
pub fn hand_in(
    desks: &mut [u8],
    desk: u32,
    n: u32,
    table: &[u8],
    marks: &[u8],
    sheet: &[u8],
) -> Result<(), Refusal>
    ensures { HandedInAs desks.old desk n (whole32 table.now)
        (marks_of n marks.now) (whole16 sheet.now) result desks.new }
{
    if desks.len() < STATE_BYTES {
        return Err(Refusal::Buffer);
    }
    if !is_desk(desk) {
        return Err(Refusal::Desk);
    }
    let number = desk as u16;
    if has_line(desks, number) {
        return Err(Refusal::DeskBusy);
    }
    test_sheet(n, table, marks, sheet)?;
    set_desk(desks, number, 1, 0, 0);
    Ok(())
}
