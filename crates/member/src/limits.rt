// Tests of a number against its limits.
ghost use Rattle.std.specs.Prelude.{◌≡◌};
ghost use Rattle.member.specs.Between.{between};

// Whether n is from low to high.
pub fn is_between(low: u64, high: u64, n: u64) -> bool
    ensures { result ≡ between low high n }
{
    (low..=high).contains(&n)
}
