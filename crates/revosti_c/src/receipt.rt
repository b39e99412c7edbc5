// Slips for C: a slip is one 64-bit number, the answer of marking, in which bit 40 is set once it is released.
ghost use Rattle.std.specs.Prelude.{◌≡◌};
ghost use Rattle.receipts.specs.View.{examiner_view, candidate_view};
ghost use Rattle.revosti.specs.Receipt.{receipt_in, release_in_c, ViewedInC};

// The slip, released; every other bit stays.
#[unsafe(no_mangle)]
pub extern "C" fn revosti_release(receipt: u64) -> u64
    ensures { result ≡ release_in_c receipt }
{
    revosti::receipt::revosti_release(receipt)
}

// Writes what the examiner sees, six bytes: the refusal number, or 0.
#[unsafe(no_mangle)]
pub extern "C" fn revosti_examiner_view(receipt: u64, bytes: &mut [u8]) -> u64
    ensures { ViewedInC (examiner_view (receipt_in receipt)) bytes.old result bytes.new }
{
    revosti::receipt::revosti_examiner_view(receipt, bytes)
}

// Writes what the candidate sees, six bytes: the refusal number, or 0.
#[unsafe(no_mangle)]
pub extern "C" fn revosti_candidate_view(receipt: u64, bytes: &mut [u8]) -> u64
    ensures { ViewedInC (candidate_view (receipt_in receipt)) bytes.old result bytes.new }
{
    revosti::receipt::revosti_candidate_view(receipt, bytes)
}
