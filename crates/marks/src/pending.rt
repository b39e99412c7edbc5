// The operations "confirm" and "withdraw": what is pending becomes struck, or open again.
ghost use Rattle.std.specs.Prelude.{◌≤◌, ◌≡◌, map};
ghost use Rattle.marks.specs.Mark.{open_mark, struck_mark};
ghost use Rattle.marks.specs.Pending.{ResolvedAs};
ghost use Rattle.marks.specs.asks.Packed.{PutAsked};
ghost use Rattle.marks.specs.asks.Pending.{resolved_byte, ResolvedQuarter};

use crate::mark;
use crate::packed::{byte_of, marks_within, quarter, well_packed};
use lengths::instance::Instance;
use lengths::refusal::{Refusal, Refused};

// The mark in quarter j of a byte, with `to` in the place of pending.
fn resolve_quarter(byte: u8, j: usize, to: u8) -> u8
    requires { PutAsked j to }
    ensures { ResolvedQuarter to byte j result }
{
    let mark = quarter(byte, j);
    if mark == mark::PENDING { to } else { mark }
}

// The byte with `to` in the place of each pending mark.
fn resolve_byte(byte: u8, to: u8) -> u8
    requires { to ≤ 3 }
    ensures { result ≡ resolved_byte to byte }
{
    let a = resolve_quarter(byte, 0, to);
    let b = resolve_quarter(byte, 1, to);
    let c = resolve_quarter(byte, 2, to);
    let d = resolve_quarter(byte, 3, to);
    byte_of(a, b, c, d)
}

// Turns every pending mark into this one.
fn resolve_all(set: &mut [u8], to: u8)
    requires { to ≤ 3 }
    ensures { set.new ≡ map (resolved_byte to) set.old }
{
    for byte in set.iter_mut() {
        *byte = resolve_byte(*byte, to);
    }
}

// Tests 1, 6 and 21, and then turns every pending mark into this one.
fn resolve(n: u32, set: &mut [u8], to: u8) -> Result<(), Refused>
    requires { to ≤ open_mark }
    ensures { ResolvedAs n to set.old result set.new }
{
    let points = Instance::admit(n)?.points;
    if !well_packed(points, set) {
        return Err(Refusal::Marks.into());
    }
    if marks_within(set, mark::OPEN) {
        return Err(Refusal::NothingPending.into());
    }
    resolve_all(set, to);
    Ok(())
}

// Strikes every pending edge of n points.
pub fn confirm(n: u32, set: &mut [u8]) -> Result<(), Refused>
    ensures { ResolvedAs n struck_mark set.old result set.new }
{
    resolve(n, set, mark::STRUCK)
}

// Opens every pending edge of n points again.
pub fn withdraw(n: u32, set: &mut [u8]) -> Result<(), Refused>
    ensures { ResolvedAs n open_mark set.old result set.new }
{
    resolve(n, set, mark::OPEN)
}
