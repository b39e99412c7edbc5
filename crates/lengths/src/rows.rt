// Rows of lengths: the lengths from a point to all points, side by side.
ghost use Rattle.std.specs.Prelude.{◌+◌, ◌*◌, ◌<◌, ◌≡◌, length, get_or};
ghost use Rattle.endian.specs.Bytes.{whole32};
ghost use Rattle.lengths.specs.asks.Rows.{RowFillable, RowPart, RowFilled, RowsFillable, RowsFilled};

use crate::edge;
use endian::bytes::Number;

// Where the row of v begins among the rows of all points.
pub fn row_start(n: u16, v: u16) -> usize
    ensures { result ≡ (n + 1) * v }
{
    (n as usize + 1) * v as usize
}

// The length to x by the row that begins at `at`.
pub fn length_in(rows: &[u32], at: usize, x: u16) -> u32
    requires { at + x < length rows.now }
    ensures { result ≡ get_or rows.now (at + x) 0 }
{
    rows[at + x as usize]
}

// The lengths from v to the points below it: the place of xv moves on by n - x - 1 as x does by 1. `step` is n - x. It
// is counted down, since to compute it from x costs a fifth more instructions.
fn fill_below(n: u16, table: &[u8], v: u16, rows: &mut [u32], at: usize)
    requires { RowFillable n (whole32 table.now) rows.old at v }
    ensures { RowPart n (whole32 table.now) rows.old at v 1 v rows.new }
{
    let points = n as usize;
    let last = v as usize;
    // the place of xv, plus 1
    let mut from = last - 1;
    let mut step = points - 1;
    for x in 1..last {
        rows[at + x] = u32::number(table, from - 1);
        step -= 1;
        from += step;
    }
}

// The lengths from v to the points above it stand side by side in the table.
fn fill_above(n: u16, table: &[u8], v: u16, rows: &mut [u32], at: usize)
    requires { RowFillable n (whole32 table.now) rows.old at v }
    ensures { RowPart n (whole32 table.now) rows.old at v (v + 1) (n + 1) rows.new }
{
    if n <= v {
        return;
    }
    let first = edge::place(n, v, v + 1);
    let start = at + v as usize + 1;
    for i in 0..(n - v) as usize {
        rows[start + i] = u32::number(table, first + i);
    }
}

// Writes the row of v, 0 from v to itself.
pub fn fill_row(n: u16, table: &[u8], v: u16, rows: &mut [u32], at: usize)
    requires { RowFillable n (whole32 table.now) rows.old at v }
    ensures { RowFilled n (whole32 table.now) rows.old at v rows.new }
{
    fill_below(n, table, v, rows, at);
    rows[at + v as usize] = 0;
    fill_above(n, table, v, rows, at);
}

// Writes the rows of all points.
pub fn fill_rows(n: u16, table: &[u8], rows: &mut [u32])
    requires { RowsFillable n (whole32 table.now) rows.old }
    ensures { RowsFilled n (whole32 table.now) rows.old rows.new }
{
    for v in 1..=n {
        fill_row(n, table, v, rows, row_start(n, v));
    }
}
