// The numbers for C of what more than one operation answers.
ghost use Rattle.std.specs.Prelude.{◌≡◌};
ghost use Rattle.revosti.specs.Outcome.{outcome_number, counted_number};

use lengths::refusal::Refused;

// Of an operation that writes or is refused: the refusal number, or 0.
pub fn outcome_number(outcome: Result<(), Refused>) -> u64
    ensures { result ≡ outcome_number outcome }
{
    match outcome {
        Ok(()) => 0,
        Err(refused) => u64::from(refused.refusal.number()),
    }
}

// Of an operation that counts what it writes: the refusal number alone, or 65,536 times the count.
pub fn counted_number(counted: Result<u16, Refused>) -> u64
    ensures { result ≡ counted_number counted }
{
    match counted {
        Ok(count) => 65_536 * u64::from(count),
        Err(refused) => u64::from(refused.refusal.number()),
    }
}
