// Eight desks for C: the answer as one 64-bit number.
ghost use Rattle.revosti.specs.Desk.{OpenedInC, HandedInC, NextInC, TurnedInC};

// Opens the desks: the refusal number, or 0.
#[unsafe(no_mangle)]
pub extern "C" fn revosti_open_desks(desks: &mut [u8]) -> u64
    ensures { OpenedInC desks.old result desks.new }
{
    revosti::desk::revosti_open_desks(desks)
}

// Hands in a sheet at a desk: the refusal number, or 0.
#[unsafe(no_mangle)]
pub extern "C" fn revosti_hand_in(
    desks: &mut [u8],
    desk: u32,
    n: u32,
    table: &[u8],
    marks: &[u8],
    sheet: &[u8],
) -> u64
    ensures { HandedInC desks.old desk n table.now marks.now
        sheet.now result desks.new }
{
    revosti::desk::revosti_hand_in(desks, desk, n, table, marks, sheet)
}

// The desk that the next turn serves.
#[unsafe(no_mangle)]
pub extern "C" fn revosti_next_desk(desks: &[u8]) -> u64
    ensures { NextInC desks.now result }
{
    revosti::desk::revosti_next_desk(desks)
}

// One turn: one line of one desk.
#[unsafe(no_mangle)]
pub extern "C" fn revosti_turn(
    desks: &mut [u8],
    n: u32,
    table: &[u8],
    marks: &mut [u8],
    sheet: &[u8],
) -> u64
    ensures { TurnedInC desks.old n table.now marks.old sheet.now
        result desks.new marks.new }
{
    revosti::desk::revosti_turn(desks, n, table, marks, sheet)
}
