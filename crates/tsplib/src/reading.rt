// The operations that read a TSPLIB text.
ghost use Rattle.std.specs.Prelude.{◌≡◌};
ghost use Rattle.tsplib.specs.Judging.{judged};
ghost use Rattle.tsplib.specs.Reading.{ReadAs, points_of, at_line, at_call};
ghost use Rattle.tsplib.specs.asks.Reading.{GatheredAsked, CoordinatesAsked, CoordinatesRead, WeightsAsked, WeightsRead};

use crate::gathering::gather;
use crate::judging::{Described, Fault, judge};
use endian::bytes::count_of;
use lengths::edge;
use lengths::instance::Instance;
use lengths::measure::measure;
use lengths::refusal::Refusal;
use tsplib_lines::text_line::Weighing;

// A refusal of a text with its line, which is 0 but for 19.
#[derive(Clone, Copy, Debug, PartialEq, Eq)]
pub struct TextRefused {
    pub refusal: Refusal,
    pub line: u64,
}

impl From<Refusal> for TextRefused {
    ghost from_gives = { λ refusal refused. refused ≡ at_call refusal };

    fn from(refusal: Refusal) -> TextRefused {
        TextRefused { refusal, line: 0 }
    }
}

impl From<Fault> for TextRefused {
    ghost from_gives = { λ fault refused. refused ≡ at_line fault };

    fn from(fault: Fault) -> TextRefused {
        TextRefused {
            refusal: Refusal::Text,
            line: fault.line,
        }
    }
}

// A place for the bytes of all coordinates.
const COORDINATE_BYTES: usize = 8 * Instance::MOST_POINTS as usize;

// Gathers the coordinates of n points into a buffer of their size, and measures them.
fn measure_gathered(
    text: &[u8],
    n: u32,
    rule: u32,
    coordinates: &mut [u8],
    table: &mut [u8],
) -> Result<u32, TextRefused>
    requires { GatheredAsked text.now n coordinates.old }
    ensures { CoordinatesRead text.now n rule table.old result table.new }
{
    gather(text, 1, coordinates);
    match measure(n, rule, coordinates, table) {
        Ok(()) => Ok(n),
        Err(refused) => Err(TextRefused::from(refused.refusal)),
    }
}

// Reads the coordinates of n points and measures them.
fn read_coordinates(text: &[u8], n: u32, rule: u32, table: &mut [u8]) -> Result<u32, TextRefused>
    requires { CoordinatesAsked text.now n }
    ensures { CoordinatesRead text.now n rule table.old result table.new }
{
    let instance = Instance::admit(n)?;
    let bytes = 8 * usize::from(instance.points);
    let mut coordinates = [0u8; COORDINATE_BYTES];
    measure_gathered(text, n, rule, &mut coordinates[..bytes], table)
}

// Reads the weights of n points, the largest of which is `maximum`.
fn read_weights(text: &[u8], n: u32, maximum: u32, table: &mut [u8]) -> Result<u32, TextRefused>
    requires { WeightsAsked text.now n maximum }
    ensures { WeightsRead text.now n table.old result table.new }
{
    let instance = Instance::admit(n)?;
    if count_of::<u32>(table) != edge::count(instance.points) {
        return Err(Refusal::Size.into());
    }
    if Instance::MOST_LENGTH < maximum {
        return Err(Refusal::Length.into());
    }
    gather(text, 0, table);
    Ok(n)
}

// Reads a TSPLIB text into the table: first the language, then the tests of *measure* or of weights.
pub fn read_tsplib(text: &[u8], table: &mut [u8]) -> Result<u32, TextRefused>
    ensures { ReadAs text.now table.old result table.new }
{
    let Described {
        n,
        weighing,
        maximum,
    } = judge(text)?;
    match weighing {
        Weighing::Rule(rule) => read_coordinates(text, n, rule, table),
        Weighing::Explicit => read_weights(text, n, maximum, table),
    }
}

// How many points a TSPLIB text has.
pub fn tsplib_points(text: &[u8]) -> Result<u32, TextRefused>
    ensures { result ≡ points_of (judged text.now) }
{
    Ok(judge(text)?.n)
}
