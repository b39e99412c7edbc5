// TSPLIB texts for C: the answer as one 64-bit number.
ghost use Rattle.std.specs.Prelude.{◌≡◌};
ghost use Rattle.revosti.specs.Reading.{read_number, points_in_c, ReadInC};

use tsplib::reading::{TextRefused, read_tsplib, tsplib_points};

// The refusal number, with 256 times its line modulo 2^64, which is 0 but for 19; or 65,536 times the number of points.
fn read_number(read: Result<u32, TextRefused>) -> u64
    ensures { result ≡ read_number read }
{
    match read {
        Ok(n) => 65_536 * u64::from(n),
        Err(refused) => {
            u64::from(refused.refusal.number()) + 256 * (refused.line % 72_057_594_037_927_936)
        }
    }
}

// Reads a TSPLIB text into the table, 32 bits an edge.
pub fn revosti_read_tsplib(text: &[u8], table: &mut [u8]) -> u64
    ensures { ReadInC text.now table.old result table.new }
{
    read_number(read_tsplib(text, table))
}

// How many points a TSPLIB text has.
pub fn revosti_tsplib_points(text: &[u8]) -> u64
    ensures { result ≡ points_in_c text.now }
{
    read_number(tsplib_points(text))
}
