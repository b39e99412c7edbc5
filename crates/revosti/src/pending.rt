// "Confirm" and "withdraw" for C: the answer as one number.
ghost use Rattle.marks.specs.Mark.{struck_mark, open_mark};
ghost use Rattle.revosti.specs.Pending.{ResolvedInC};

use crate::outcome::outcome_number;
use marks::pending::{confirm, withdraw};

// Strikes every pending edge: the refusal number, or 0.
pub fn revosti_confirm(n: u32, marks: &mut [u8]) -> u64
    ensures { ResolvedInC struck_mark n marks.old result marks.new }
{
    outcome_number(confirm(n, marks))
}

// Opens every pending edge again: the refusal number, or 0.
pub fn revosti_withdraw(n: u32, marks: &mut [u8]) -> u64
    ensures { ResolvedInC open_mark n marks.old result marks.new }
{
    outcome_number(withdraw(n, marks))
}
