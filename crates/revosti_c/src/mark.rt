// "Mark a sheet" and "ask a sheet" for C: the answer as one 64-bit number.
ghost use Rattle.marks.specs.Mark.{struck_mark, pending_mark};
ghost use Rattle.revosti.specs.Mark.{MarkedInC};

// Marks a sheet. The table has 32 bits an edge, the sheet 16 bits a number.
#[unsafe(no_mangle)]
pub extern "C" fn revosti_mark_sheet(n: u32, table: &[u8], marks: &mut [u8], sheet: &[u8]) -> u64
    ensures { MarkedInC struck_mark n table.now marks.old sheet.now result marks.new }
{
    revosti::mark::revosti_mark_sheet(n, table, marks, sheet)
}

// Asks a sheet: as marking, with its strikes pending.
#[unsafe(no_mangle)]
pub extern "C" fn revosti_ask_sheet(n: u32, table: &[u8], marks: &mut [u8], sheet: &[u8]) -> u64
    ensures { MarkedInC pending_mark n table.now marks.old sheet.now result marks.new }
{
    revosti::mark::revosti_ask_sheet(n, table, marks, sheet)
}
