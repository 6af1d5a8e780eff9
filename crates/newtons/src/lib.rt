// A double as an effect: the whole number of newtons that it is, and whether that is within the limit.
#![tactic(auto)]

ghost use Rattle.std.specs.Prelude.{◌≡◌};
ghost use Rattle.refusal.specs.Said.{said, told};
ghost use Rattle.newtons.specs.Effect.{value_of, held_of, within, effect_of, said_effect};

use refusal::{Refusal, Refused};

pub mod signed;

// The greatest effect taken, in newtons, either way.
const LIMIT: u64 = 1_000_000_000_000;

// The exponent in the bits of an infinity.
const INFINITE: u64 = 2047;

// A double as an effect in newtons; a refused one comes back as it came. It stays an enum of its own and is no Result, since
// the papers name its three cases (01, Where each language form belongs).
#[derive(Clone, Copy)]
pub enum Effect {
    Whole(i64),
    NotWhole(f64),
    Beyond(f64),
}

impl Effect {
    // The whole number, or the refusal with the double as it came.
    #[tactic(auto, unfolding(crate::specs::Effect::said_effect, refusal::specs::Said::told, refusal::specs::Refusal::number_of))]
    pub fn checked(self) -> Result<i64, Refused<f64>>
        ensures { told result ≡ said_effect self }
    {
        match self {
            Effect::Whole(newtons) => Ok(newtons),
            Effect::NotWhole(double) => Err(Refused {
                refusal: Refusal::EffectNotWhole,
                back: double,
            }),
            Effect::Beyond(double) => Err(Refused {
                refusal: Refusal::EffectOutOfRange,
                back: double,
            }),
        }
    }
}

// Whether an effect of so many newtons is within the limit.
pub fn is_within(newtons: i64) -> bool
    ensures { result ≡ within newtons }
{
    signed::magnitude(newtons) <= LIMIT
}

// The whole number that a double is, read off its bits, as the papers ask: the sign, the exponent and the digits. There is
// none where it is 2^53 or more in size, from where on every double is whole and few fit 64 bits.
pub fn value_of(x: f64) -> Result<Option<i64>, Refusal>
    ensures { said result ≡ held_of (value_of x) }
{
    if x.is_nan() {
        return Err(Refusal::EffectNotWhole);
    }
    let bits = f64::to_bits(x);
    let unsigned = bits % 0x8000_0000_0000_0000;
    let is_zero = unsigned == 0;
    if is_zero {
        return Ok(Some(0));
    }
    let exponent = unsigned / 0x10_0000_0000_0000;
    if exponent < 1023 {
        // Above 0 and below 1 in size.
        return Err(Refusal::EffectNotWhole);
    }
    if exponent == INFINITE {
        // An infinity.
        return Err(Refusal::EffectNotWhole);
    }
    let is_large = exponent > 1075;
    if is_large {
        return Ok(None);
    }
    // The size is so many units of 2^(exponent - 1075).
    let units = 0x10_0000_0000_0000 + bits % 0x10_0000_0000_0000;
    let one = 1u64 << (1075 - exponent);
    let has_fraction = units % one > 0;
    if has_fraction {
        return Err(Refusal::EffectNotWhole);
    }
    let size = units / one;
    let is_negative = bits >= 0x8000_0000_0000_0000;
    if is_negative {
        return Ok(Some(-(size as i64)));
    }
    Ok(Some(size as i64))
}

// A double as an effect: first whether it is a whole number, then whether that is within the limit.
#[tactic(auto, unfolding(crate::specs::Effect::said_effect, refusal::specs::Said::said, refusal::specs::Refusal::number_of), using(crate::proofs::Limits::held_within, crate::proofs::Limits::held_past, crate::proofs::Limits::held_beyond, crate::proofs::Limits::held_fraction))]
pub fn whole_of(x: f64) -> Effect
    ensures { said_effect result ≡ effect_of x }
{
    match value_of(x) {
        Ok(Some(newtons)) => {
            if is_within(newtons) {
                return Effect::Whole(newtons);
            }
            Effect::Beyond(x)
        }
        Ok(None) => Effect::Beyond(x),
        Err(_) => Effect::NotWhole(x),
    }
}
