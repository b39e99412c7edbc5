// "Fresh marks" for C: the answer as one number.
ghost use Rattle.revosti.specs.Fresh.{FreshInC};

use crate::outcome::outcome_number;
use marks::fresh::fresh_marks;

// Makes the marks of n points fresh: the refusal number, or 0.
pub fn revosti_fresh_marks(n: u32, marks: &mut [u8]) -> u64
    ensures { FreshInC n marks.old result marks.new }
{
    outcome_number(fresh_marks(n, marks))
}
