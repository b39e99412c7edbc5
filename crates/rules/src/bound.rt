// How much a pair at a split point may cost (condition 5).
ghost use Rattle.std.specs.Prelude.{◌≡◌};
ghost use Rattle.rules.specs.asks.Bound.{tightened_by, Short};

use lengths::instance::Instance;

// The bound where no edge of K asks for less: two legs that are not FAR always meet it.
pub const LOOSE: u32 = 3 * Instance::MOST_LENGTH;

// The bound with the edge uv taken in, if it does not touch c.
pub fn tighten(c: u16, u: u16, v: u16, uv: u32, cu: u32, cv: u32, bound: u32) -> u32
    requires { Short uv cu cv }
    ensures { result ≡ tightened_by c u v uv cu cv bound }
{
    if u == c || v == c {
        return bound;
    }
    (cu + cv + Instance::MOST_LENGTH - uv).min(bound)
}
