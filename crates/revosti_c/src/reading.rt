// TSPLIB texts for C: the answer as one 64-bit number.
ghost use Rattle.std.specs.Prelude.{◌≡◌};
ghost use Rattle.revosti.specs.Reading.{points_in_c, ReadInC};

// Reads a TSPLIB text into the table, 32 bits an edge.
#[unsafe(no_mangle)]
pub extern "C" fn revosti_read_tsplib(text: &[u8], table: &mut [u8]) -> u64
    ensures { ReadInC text.now table.old result table.new }
{
    revosti::reading::revosti_read_tsplib(text, table)
}

// How many points a TSPLIB text has.
#[unsafe(no_mangle)]
pub extern "C" fn revosti_tsplib_points(text: &[u8]) -> u64
    ensures { result ≡ points_in_c text.now }
{
    revosti::reading::revosti_tsplib_points(text)
}
