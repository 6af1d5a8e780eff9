// The magnitude of a signed number, for the limit of an effect.
ghost use Rattle.std.specs.Prelude.{◌≡◌};
ghost use Rattle.newtons.specs.Effect.{magnitude_of};

// How large a number is, whatever its sign.
pub fn magnitude(n: i64) -> u64
    ensures { result ≡ magnitude_of n }
{
    n.unsigned_abs()
}
