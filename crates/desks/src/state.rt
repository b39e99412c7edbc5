// The desks' state: 25 numbers of 16 bits in the first 50 of the bytes that are lent. The first is the last desk
// served, 0 at first; then of each desk come the index of its next line, the record that has this index, and the lines
// accepted. Any bytes are a state.
ghost use Rattle.std.specs.Prelude.{◌≡◌};
ghost use Rattle.desks.specs.State.{number_at, has_line, following, next_desk, next_answer};
ghost use Rattle.desks.specs.asks.State.{StateAsked, PlaceAsked, DeskAsked, SetAs};

use endian::bytes::Number;
use lengths::refusal::Refusal;

pub const DESKS: u16 = 8;

pub const STATE_BYTES: usize = 50;

// The number at a place of the state, from 0 on.
pub fn number_at(desks: &[u8], at: usize) -> u16
    requires { PlaceAsked desks.now at }
    ensures { result ≡ number_at desks.now at }
{
    u16::number(&desks[..STATE_BYTES], at)
}

// Has the desk a line left? Its lines are below the index of its next one.
pub fn has_line(desks: &[u8], desk: u16) -> bool
    requires { DeskAsked desks.now desk }
    ensures { result ≡ has_line desks.now desk }
{
    let last = 3 * desk as usize;
    number_at(desks, last) < number_at(desks, last - 2)
}

// Writes a desk's three numbers.
pub fn set_desk(desks: &mut [u8], desk: u16, index: u16, owner: u16, lines: u16)
    requires { DeskAsked desks.old desk }
    ensures { SetAs desks.old desk index owner lines desks.new }
{
    let last = 3 * desk as usize;
    u16::put(desks, last - 2, index);
    u16::put(desks, last - 1, owner);
    u16::put(desks, last, lines);
}

// The desk after this one, counting upward and round again.
fn following(desk: u16) -> u16
    ensures { result ≡ following desk }
{
    desk % DESKS + 1
}

// The round robin: the next desk after the last served that has a line left, if one has.
pub fn next_of(desks: &[u8]) -> Option<u16>
    requires { StateAsked desks.now }
    ensures { result ≡ next_desk desks.now }
{
    let mut desk = following(number_at(desks, 0));
    for _ in 0..DESKS {
        if has_line(desks, desk) {
            return Some(desk);
        }
        desk = following(desk);
    }
    None
}

// The desk that the next turn serves, if one has a line left: test 22, then the round robin.
pub fn next_desk(desks: &[u8]) -> Result<Option<u16>, Refusal>
    ensures { result ≡ next_answer desks.now }
{
    if desks.len() < STATE_BYTES {
        return Err(Refusal::Buffer);
    }
    Ok(next_of(desks))
}
