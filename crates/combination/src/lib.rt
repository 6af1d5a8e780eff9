// The 25 load combinations of seven effects, and the rows that govern.
#![tactic(auto)]

ghost use Rattle.std.specs.Prelude.{◌≡◌};
ghost use Rattle.refusal.specs.Said.{told};
ghost use Rattle.effects.specs.Check.{newtons_of};
ghost use Rattle.combination.specs.Combine.{governed, with_double, combined_of, NothingLost};

use effects::{Effects, Load, LoadEffect, Newtons};
use refusal::{Refusal, Refused};
use search::Within;

mod search;

// The loads in the order of checking.
const LOADS: [Load; 7] = [
    Load::Dead,
    Load::Live,
    Load::Roof,
    Load::Snow,
    Load::Rain,
    Load::Wind,
    Load::Quake,
];

// A row that governs, 1 to 25: its sum in tenths of a newton, and the same as a double.
#[repr(C)]
#[derive(Clone, Copy, Default)]
pub struct GoverningRow {
    pub row: u64,
    pub tenths: i64,
    pub double: f64,
}

// The rows with the greatest and the least sum.
#[repr(C)]
#[derive(Clone, Copy, Default)]
pub struct Governing {
    pub greatest: GoverningRow,
    pub least: GoverningRow,
}

// The governing rows of seven effects in whole newtons, or the first load whose effect is beyond the limit.
// Compiled into its callers, so that a combination needs less of the stack.
#[inline(always)]
pub fn govern(newtons: Newtons) -> Result<Governing, Refused<Load>>
    ensures { (told result ≡ governed (newtons_of newtons)) × NothingLost (told result) }
{
    match LOADS
        .iter()
        .find(|load| !newtons::is_within(newtons.of(**load)))
    {
        Some(load) => Err(Refused {
            refusal: Refusal::EffectOutOfRange,
            back: *load,
        }),
        None => Ok(search::governing_of(Within {
            newtons: newtons.in_order(),
        })),
    }
}

// What governs, a refusal with the effect as it came.
fn with_double(
    effects: Effects,
    governed: Result<Governing, Refused<Load>>,
) -> Result<Governing, Refused<LoadEffect<Load>>>
    ensures { told result ≡ with_double effects (told governed) }
{
    governed.map_err(|refused| Refused {
        refusal: refused.refusal,
        back: LoadEffect {
            load: refused.back,
            double: effects.of(refused.back),
        },
    })
}

// The governing rows of seven effects, or the first effect that is refused: the check, and then what
// governs the whole numbers that it gives.
pub fn combine(effects: Effects) -> Result<Governing, Refused<LoadEffect<Load>>>
    ensures { (told result ≡ combined_of effects) × NothingLost (told result) }
{
    let newtons = effects::check(effects)?;
    with_double(effects, govern(newtons))
}
