// "Confirm" and "withdraw" for C: the answer as one number.
ghost use Rattle.marks.specs.Mark.{struck_mark, open_mark};
ghost use Rattle.revosti.specs.Pending.{ResolvedInC};

// Strikes every pending edge: the refusal number, or 0.
#[unsafe(no_mangle)]
pub extern "C" fn revosti_confirm(n: u32, marks: &mut [u8]) -> u64
    ensures { ResolvedInC struck_mark n marks.old result marks.new }
{
    revosti::pending::revosti_confirm(n, marks)
}

// Opens every pending edge again: the refusal number, or 0.
#[unsafe(no_mangle)]
pub extern "C" fn revosti_withdraw(n: u32, marks: &mut [u8]) -> u64
    ensures { ResolvedInC open_mark n marks.old result marks.new }
{
    revosti::pending::revosti_withdraw(n, marks)
}
