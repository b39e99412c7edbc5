// "Pack marks" and "unpack marks" for C: the answer as one number.
ghost use Rattle.revosti.specs.Converting.{PackedInC, UnpackedInC};

use crate::outcome::outcome_number;
use marks::converting::{pack_marks, unpack_marks};

// Packs a byte set, one byte an edge: the refusal number, or 0.
pub fn revosti_pack_marks(n: u32, bytes: &[u8], packed: &mut [u8]) -> u64
    ensures { PackedInC n bytes.now packed.old result packed.new }
{
    outcome_number(pack_marks(n, bytes, packed))
}

// Unpacks a packed set, into one byte an edge: the refusal number, or 0.
pub fn revosti_unpack_marks(n: u32, packed: &[u8], bytes: &mut [u8]) -> u64
    ensures { UnpackedInC n packed.now bytes.old result bytes.new }
{
    outcome_number(unpack_marks(n, packed, bytes))
}
