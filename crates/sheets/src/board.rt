// What the walk through a sheet reads beside the marks.
ghost use Rattle.std.specs.Prelude.{◌≡◌};

use lengths::two_tables::{Rows, Tables};

// The tables of lengths with their rows, and a sheet of `count` records. The marks are no part of it: an accepted line
// changes them.
#[derive(Clone, Copy)]
pub struct Board<'a> {
    pub tables: Tables<'a>,
    pub rows: Rows<'a>,
    pub sheet: &'a [u8],
    pub count: u16,
    pub ghost same: { rows.n ≡ tables.n },
}
