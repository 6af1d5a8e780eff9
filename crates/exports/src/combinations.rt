// The combination of seven effects for programs in C and Rust.
ghost use Rattle.std.specs.Prelude.{◌≡◌};
ghost use Rattle.refusal.specs.Said.{told};
ghost use Rattle.combination.specs.Combine.{combined_of};
ghost use Rattle.exports.specs.Exported.{handed_in, shown_combined};

use crate::checks::BungeroEffects;
use combination::Governing;
use effects::{Load, LoadEffect};
use refusal::Refused;

// What combining gives: the paper's number, 0 where none holds; the place of the refused effect, 1 for
// dead to 7 for quake, and its double as it came; or the governing rows. The rest is 0.
#[repr(C)]
#[derive(Clone, Copy, Default)]
pub struct BungeroCombined {
    pub number: u64,
    pub place: u64,
    pub double: f64,
    pub governing: Governing,
}

// The refused effect is told as BungeroChecked tells it: C's header names its three numbers one by one, in each.
impl From<Result<Governing, Refused<LoadEffect<Load>>>> for BungeroCombined {
    ghost from_gives = { λ answer combined. combined ≡ shown_combined (told answer) };

    #[tactic(auto, unfolding(crate::specs::Exported::shown_combined, refusal::specs::Said::told))]
    fn from(answer: Result<Governing, Refused<LoadEffect<Load>>>) -> BungeroCombined {
        match answer {
            Ok(governing) => BungeroCombined {
                governing,
                ..BungeroCombined::default()
            },
            Err(refused) => BungeroCombined {
                number: refused.refusal.number(),
                place: refused.back.load.place(),
                double: refused.back.double,
                ..BungeroCombined::default()
            },
        }
    }
}

// Combines seven effects.
#[unsafe(no_mangle)]
pub extern "C" fn bungero_combine(effects: BungeroEffects) -> BungeroCombined
    ensures { result ≡ shown_combined (combined_of (handed_in effects)) }
{
    combination::combine(effects.into()).into()
}
