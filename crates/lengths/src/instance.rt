// The limits of an instance, the test of its number of points, and the test of a point.
ghost use Rattle.std.specs.Prelude.{◌≡◌};
ghost use Rattle.lengths.specs.Instance.{admission, is_point};

use crate::refusal::Refusal;

// An instance of LEAST_POINTS to MOST_POINTS points.
#[derive(Clone, Copy, Debug, PartialEq, Eq)]
pub struct Instance {
    pub points: u16,
}

impl Instance {
    pub const LEAST_POINTS: u32 = 4;

    pub const MOST_POINTS: u32 = 180;

    pub const MOST_COORDINATE: u32 = 1_000_000;

    pub const MOST_LENGTH: u32 = 2_000_000;

    pub const MOST_EDGES: usize = (Instance::MOST_POINTS * (Instance::MOST_POINTS - 1)
        / 2) as usize;

    // A place for each point, and one for 0, which is no point.
    pub const PLACES: usize = Instance::MOST_POINTS as usize + 1;

    // Up to so many points a call uses small arrays: to clear large ones takes longer than to mark a short sheet.
    pub const FEW_POINTS: u16 = 60;

    pub const FEW_EDGES: usize = (Instance::FEW_POINTS * (Instance::FEW_POINTS - 1) / 2) as usize;

    pub const FEW_PLACES: usize = Instance::FEW_POINTS as usize + 1;

    // The instance of n points, where n is within the limits.
    pub fn admit(n: u32) -> Result<Instance, Refusal>
        ensures { result ≡ admission n }
    {
        if n < Instance::LEAST_POINTS || Instance::MOST_POINTS < n {
            return Err(Refusal::Points);
        }
        Ok(Instance { points: n as u16 })
    }
}

// Is a one of the points 1 to n?
pub fn is_point(n: u16, a: u16) -> bool
    ensures { result ≡ is_point n a }
{
    1 <= a && a <= n
}
