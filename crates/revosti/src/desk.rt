// Eight desks for C: the answer as one 64-bit number.
ghost use Rattle.std.specs.Prelude.{◌≡◌};
ghost use Rattle.desks.specs.Turn.{desk_sheet, desk_turned};
ghost use Rattle.revosti.specs.Desk.{handed_number, next_number, turned_number, OpenedInC, HandedInC, NextInC, TurnedInC};
ghost use Rattle.revosti.specs.asks.Desk.{ServedNumber, FewDesks};

use crate::mark::marked_number;
use desks::handing::{hand_in, open_desks};
use desks::state::next_desk;
use desks::turn::{Served, Turned, turn};
use lengths::refusal::Refusal;

// Bit 48, from which on an answer has the desk, and bit 56, set where it has a line left.
const DESK: u64 = 281_474_976_710_656;

const LINE_LEFT: u64 = 256 * DESK;

// The refusal number, or 0.
fn handed_number(handed: Result<(), Refusal>) -> u64
    ensures { result ≡ handed_number handed }
{
    match handed {
        Ok(()) => 0,
        Err(refusal) => u64::from(refusal.number()),
    }
}

// The refusal number alone, or 65,536 times the desk, 0 where none has a line left.
fn next_number(answer: Result<Option<u16>, Refusal>) -> u64
    ensures { result ≡ next_number answer }
{
    match answer {
        Ok(desk) => desk.map_or(0, |number| 65_536 * u64::from(number)),
        Err(refusal) => u64::from(refusal.number()),
    }
}

// The number of a marked sheet's verdict; or 16,777,216 times the lines so far, with bit 56 set.
fn served_number(served: Served) -> u64
    ensures { ServedNumber (desk_sheet served) result }
{
    match served {
        Served::Waits { lines, .. } => 16_777_216 * u64::from(lines) + LINE_LEFT,
        Served::Ended(verdict) => marked_number(verdict),
    }
}

// The refusal number alone; 0 where no desk has a line left; or the number of what came of the served desk, and the
// desk.
fn turned_number(turned: Result<Option<Turned>, Refusal>) -> u64
    requires { FewDesks (desk_turned turned) }
    ensures { result ≡ turned_number (desk_turned turned) }
{
    match turned {
        Ok(Some(turn)) => served_number(turn.served) + DESK * u64::from(turn.desk),
        Ok(None) => 0,
        Err(refusal) => u64::from(refusal.number()),
    }
}

// Opens the desks: the refusal number, or 0.
pub fn revosti_open_desks(desks: &mut [u8]) -> u64
    ensures { OpenedInC desks.old result desks.new }
{
    handed_number(open_desks(desks))
}

// Hands in a sheet at a desk: the refusal number, or 0.
pub fn revosti_hand_in(
    desks: &mut [u8],
    desk: u32,
    n: u32,
    table: &[u8],
    marks: &[u8],
    sheet: &[u8],
) -> u64
    ensures { HandedInC desks.old desk n table.now marks.now
        sheet.now result desks.new }
{
    handed_number(hand_in(desks, desk, n, table, marks, sheet))
}

// The desk that the next turn serves.
pub fn revosti_next_desk(desks: &[u8]) -> u64
    ensures { NextInC desks.now result }
{
    next_number(next_desk(desks))
}

// One turn: one line of one desk.
pub fn revosti_turn(desks: &mut [u8], n: u32, table: &[u8], marks: &mut [u8], sheet: &[u8]) -> u64
    ensures { TurnedInC desks.old n table.now marks.old sheet.now
        result desks.new marks.new }
{
    turned_number(turn(desks, n, table, marks, sheet))
}
