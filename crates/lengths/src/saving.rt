// Savings: what is taken out less what is put in, as signed numbers.
ghost use Rattle.std.specs.Prelude.{◌<◌, ◌^◌, ◌≡◌};
ghost use Rattle.lengths.specs.Saving.{saving};

// The old sum less the new one.
pub fn saving(old: u64, new: u64) -> i64
    requires { (old < 2 ^ 40) × (new < 2 ^ 40) }
    ensures { result ≡ saving old new }
{
    old as i64 - new as i64
}
