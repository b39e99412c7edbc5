// The header of the program's input, and the tests of the file.
ghost use Rattle.std.specs.Prelude.{◌≡◌};
ghost use Rattle.report.specs.Header.{header_of, number_in};
ghost use Rattle.report.specs.asks.Header.{NumberAsked};

use endian::bytes::Number;
use lengths::instance::Instance;
use lengths::refusal::Refusal;
use sheets::sheet::Sheet;

// What the header of a file that passed its tests says: the number of the rule, and of points.
#[derive(Clone, Copy)]
pub struct Header {
    pub rule: u32,
    pub points: u16,
}

// The rule, number 0, or n, number 1.
fn number_in(file: &[u8], i: usize) -> u32
    requires { NumberAsked file.now i }
    ensures { result ≡ number_in file.now i }
{
    u32::number(&file[..Header::BYTES], i)
}

impl Header {
    // How many bytes the rule and n have.
    pub const BYTES: usize = 8;

    // How many bytes the coordinates of a point have.
    pub const POINT_BYTES: usize = 8;

    // The header, the coordinates of most points and the numbers of most records.
    pub const MOST_BYTES: usize = Header::BYTES
        + Header::POINT_BYTES * Instance::MOST_POINTS as usize
        + 2 * Sheet::MOST_NUMBERS;

    // The tests of the file: whole header, n, whole coordinates, not too long.
    pub fn read(file: &[u8]) -> Result<Header, Refusal>
        ensures { result ≡ header_of file.now }
    {
        if file.len() < Header::BYTES {
            return Err(Refusal::Sheet);
        }
        let points = Instance::admit(number_in(file, 1))?.points;
        let body = Header::BYTES + Header::POINT_BYTES * (points as usize);
        if file.len() < body || Header::MOST_BYTES < file.len() {
            return Err(Refusal::Sheet);
        }
        Ok(Header {
            rule: number_in(file, 0),
            points: points,
        })
    }
}
