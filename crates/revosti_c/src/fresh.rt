// "Fresh marks" for C: the answer as one number.
ghost use Rattle.revosti.specs.Fresh.{FreshInC};

// Makes the marks of n points fresh: the refusal number, or 0.
#[unsafe(no_mangle)]
pub extern "C" fn revosti_fresh_marks(n: u32, marks: &mut [u8]) -> u64
    ensures { FreshInC n marks.old result marks.new }
{
    revosti::fresh::revosti_fresh_marks(n, marks)
}
