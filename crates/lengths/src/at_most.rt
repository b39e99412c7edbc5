// Is every number that bytes are at most a limit: one for all, or one for each.
ghost use Rattle.std.specs.Prelude.{◌≡◌, length};
ghost use Rattle.endian.specs.Bytes.{whole32};
ghost use Rattle.lists.specs.Test.{all_at_most, each_at_most};

use endian::bytes::{Number, count_of};

// Is no number above the limit? It reads all of them, with no early exit, so that the compiler compares several at once.
pub fn all_at_most(bytes: &[u8], limit: u32) -> bool
    ensures { result ≡ all_at_most limit (whole32 bytes.now) }
{
    let mut within = true;
    for i in 0..count_of::<u32>(bytes) {
        if limit < u32::number(bytes, i) {
            within = false;
        }
    }
    within
}

// Is no number above the one in its place among as many others? It reads all of them, and takes each comparison in by
// `&=`: by an `if` the compiler compares one at a time where this is called behind the tests before it.
pub fn each_at_most(low: &[u8], high: &[u8]) -> bool
    requires { length (whole32 low.now) ≡ length (whole32 high.now) }
    ensures { result ≡ each_at_most (whole32 low.now) (whole32 high.now) }
{
    let mut within = true;
    for i in 0..count_of::<u32>(low) {
        within &= u32::number(low, i) <= u32::number(high, i);
    }
    within
}
