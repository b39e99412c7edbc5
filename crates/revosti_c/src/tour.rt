// "Check a tour" for C: the answer as one 64-bit number.
ghost use Rattle.std.specs.Prelude.{◌≡◌};
ghost use Rattle.revosti.specs.Tour.{tour_in_c};

// Checks a tour. The table has 32 bits an edge, the tour 16 bits a point.
#[unsafe(no_mangle)]
pub extern "C" fn revosti_check_tour(n: u32, table: &[u8], marks: &[u8], tour: &[u8]) -> u64
    ensures { result ≡ tour_in_c n table.now marks.now tour.now }
{
    revosti::tour::revosti_check_tour(n, table, marks, tour)
}
