// "Measure" for C: the answer as one number.
ghost use Rattle.endian.specs.Bytes.{whole32};
ghost use Rattle.revosti.specs.Measure.{MeasuredInC};

use crate::outcome::outcome_number;
use lengths::measure::measure;

// Measures the coordinates into the table, 32 bits each: the refusal number, or 0.
pub fn revosti_measure(n: u32, rule: u32, coordinates: &[u8], table: &mut [u8]) -> u64
    ensures { MeasuredInC n rule (whole32 coordinates.now) table.old result table.new }
{
    outcome_number(measure(n, rule, coordinates, table))
}
