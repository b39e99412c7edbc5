// TSPLIB's distances in whole numbers: the least number that passes the rule's growing test.
ghost use Rattle.std.specs.Prelude.{◌≡◌, true, ◌≤◌, ok_or};
ghost use Rattle.lengths.specs.Instance.{most_coordinate, most_squares};
ghost use Rattle.lengths.specs.Distance.{passes, rule_of, squares};
ghost use Rattle.lengths.specs.declared.refusal.Refusal.TheVariants as refusal;
ghost use Rattle.lengths.specs.asks.Distance.{rounded_by, Measurable, Distance, step_from, Close, NewtonAsked, GapDistance};

use crate::instance::Instance;
use crate::refusal::Refusal;

// The rules that round a square root, under TSPLIB's names.
#[derive(Clone, Copy)]
pub enum Root {
    Euc2d,
    Ceil2d,
    Att,
}

// The rules of 01, under TSPLIB's names: one that rounds a root, or one that goes by the two gaps themselves.
#[derive(Clone, Copy)]
pub enum Rule {
    Rooted(Root),
    Man2d,
    Max2d,
}

// How a root is rounded: EUC_2D to the nearest, CEIL_2D and ATT up.
#[derive(Clone, Copy)]
pub enum Rounding {
    Nearest,
    Up,
}

// The rule with this number in 01.
impl TryFrom<u32> for Rule {
    type Error = Refusal;

    ghost try_from_gives = { λ number rule. rule ≡ ok_or (rule_of number) refusal.Rule };

    fn try_from(number: u32) -> Result<Rule, Refusal> {
        match number {
            1 => Ok(Rule::Rooted(Root::Euc2d)),
            2 => Ok(Rule::Rooted(Root::Ceil2d)),
            3 => Ok(Rule::Rooted(Root::Att)),
            4 => Ok(Rule::Man2d),
            5 => Ok(Rule::Max2d),
            _ => Err(Refusal::Rule),
        }
    }
}

// The test of d at the sum of squares s.
fn test(rounding: Rounding, s: u64, d: u64) -> bool
    requires { Measurable s d }
    ensures { result ≡ passes (rounded_by rounding) s d }
{
    match rounding {
        Rounding::Nearest => 4 * s < (2 * d + 1) * (2 * d + 1),
        Rounding::Up => s <= d * d,
    }
}

// One step of Newton's iteration for the square root of s.
fn newton(s: u64, x: u64) -> u64
    requires { NewtonAsked s x }
    ensures { result ≤ most_squares }
{
    (x + s / x) / 2
}

// A guess at the root of s, by two such steps from an estimate: each doubles the digits that are right. It is a hint:
// nothing rests on it. The ones keep the divisors above 0.
fn guess(s: u64, estimate: u64) -> u64
    requires { (s ≤ most_squares) × (estimate ≤ most_squares) }
{
    newton(s, newton(s, estimate + 1) + 1)
}

// The square of a guess above it may not fit.
const MOST_GUESS: u64 = Instance::MOST_LENGTH as u64;

// Is the distance the guess or one above it? A guess of 0, and those whose squares may not fit, are left to the search.
fn is_close(rounding: Rounding, s: u64, guess: u64) -> bool
    requires { s ≤ most_squares }
    ensures { result ≡ true → Close (rounded_by rounding) s guess }
{
    1 <= guess
        && guess <= MOST_GUESS
        && !test(rounding, s, guess - 1)
        && test(rounding, s, guess + 1)
}

// The step past d: 1 where d fails the test, else 0.
fn step(rounding: Rounding, s: u64, d: u64) -> u64
    requires { Measurable s d }
    ensures { result ≡ step_from (passes (rounded_by rounding) s d) }
{
    (!test(rounding, s, d)) as u64
}

// The distance at the sum of squares s. A close guess is corrected by one test without a branch; for any other
// the search halves.
fn distance(rounding: Rounding, s: u64, guess: u64) -> u64
    requires { s ≤ most_squares }
    ensures { Distance (rounded_by rounding) s result }
{
    if is_close(rounding, s, guess) {
        return guess + step(rounding, s, guess);
    }
    by_halving(rounding, s)
}

// The distance at the sum of squares s: halves the numbers of 21 bits for the least that passes. A `while`, since the
// library searches by halves in slices alone, and these numbers stand in none. Ends: the range from low to high shrinks.
fn by_halving(rounding: Rounding, s: u64) -> u64
    requires { s ≤ most_squares }
    ensures { Distance (rounded_by rounding) s result }
{
    let mut low: u64 = 0;
    let mut high: u64 = 2_097_151;
    while low < high {
        let middle = (low + high) / 2;
        if test(rounding, s, middle) {
            high = middle;
        } else {
            low = middle + 1;
        }
    }
    low
}

// The distance at the sum of squares s, from an estimate of its root.
fn rounded(rounding: Rounding, s: u64, estimate: u64) -> u64
    requires { (s ≤ most_squares) × (estimate ≤ most_squares) }
    ensures { Distance (rounded_by rounding) s result }
{
    distance(rounding, s, guess(s, estimate))
}

// An estimate of the root of the sum of the squared gaps: it misses by at most 4 percent.
fn estimate(dx: u64, dy: u64) -> u64
    requires { (dx ≤ most_coordinate) × (dy ≤ most_coordinate) }
    ensures { result ≤ most_squares }
{
    let long = dx.max(dy);
    let short = dx + dy - long;
    (123 * long + 51 * short) / 128
}

// The distance by a rule that rounds a root, of points with these gaps. ATT is CEIL_2D at a tenth of the squares, whose
// root is some 5/16 of theirs. Each arm names its rounding, so that the tests in it are compiled for that one alone.
fn rooted(root: Root, dx: u64, dy: u64) -> u64
    requires { (dx ≤ most_coordinate) × (dy ≤ most_coordinate) }
    ensures { Distance root (squares dx dy) result }
{
    let s = dx * dx + dy * dy;
    let near = estimate(dx, dy);
    match root {
        Root::Euc2d => rounded(Rounding::Nearest, s, near),
        Root::Ceil2d => rounded(Rounding::Up, s, near),
        Root::Att => rounded(Rounding::Up, (s + 9) / 10, 5 * near / 16),
    }
}

// The distance of two points whose coordinates differ by these gaps.
pub fn gap_distance(rule: Rule, dx: u64, dy: u64) -> u64
    requires { (dx ≤ most_coordinate) × (dy ≤ most_coordinate) }
    ensures { GapDistance rule dx dy result }
{
    match rule {
        Rule::Man2d => dx + dy,
        Rule::Max2d => dx.max(dy),
        Rule::Rooted(root) => rooted(root, dx, dy),
    }
}
