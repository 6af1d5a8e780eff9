// The check of seven effects for programs in C and Rust.
ghost use Rattle.std.specs.Prelude.{◌≡◌};
ghost use Rattle.effects.specs.Check.{checked_of, said_checked};
ghost use Rattle.exports.specs.Exported.{handed_in, handed_out, shown_checked};

use effects::{Effects, Load, LoadEffect, Newtons, PerLoad};
use refusal::Refused;

// The effects of seven loads as doubles. C hands over no generic struct, so this and the next are two.
#[repr(C)]
#[derive(Clone, Copy)]
pub struct BungeroEffects {
    pub dead: f64,
    pub live: f64,
    pub roof: f64,
    pub snow: f64,
    pub rain: f64,
    pub wind: f64,
    pub quake: f64,
}

// The same in whole newtons.
#[repr(C)]
#[derive(Clone, Copy, Default)]
pub struct BungeroNewtons {
    pub dead: i64,
    pub live: i64,
    pub roof: i64,
    pub snow: i64,
    pub rain: i64,
    pub wind: i64,
    pub quake: i64,
}

impl From<BungeroEffects> for Effects {
    ghost from_gives = { λ given effects. effects ≡ handed_in given };

    #[tactic(auto, unfolding(crate::specs::Exported::handed_in))]
    fn from(given: BungeroEffects) -> Effects {
        PerLoad {
            dead: given.dead,
            live: given.live,
            roof: given.roof,
            snow: given.snow,
            rain: given.rain,
            wind: given.wind,
            quake: given.quake,
        }
    }
}

impl From<Newtons> for BungeroNewtons {
    ghost from_gives = { λ n given. given ≡ record { dead = n.dead; live = n.live; roof = n.roof; snow = n.snow; rain = n.rain; wind = n.wind; quake = n.quake } };

    fn from(newtons: Newtons) -> BungeroNewtons {
        BungeroNewtons {
            dead: newtons.dead,
            live: newtons.live,
            roof: newtons.roof,
            snow: newtons.snow,
            rain: newtons.rain,
            wind: newtons.wind,
            quake: newtons.quake,
        }
    }
}

// What checking gives: the paper's number, 0 where none holds; the place of the refused effect, 1 for
// dead to 7 for quake, and its double as it came; or the effects in whole newtons. The rest is 0.
#[repr(C)]
#[derive(Clone, Copy, Default)]
pub struct BungeroChecked {
    pub number: u64,
    pub place: u64,
    pub double: f64,
    pub newtons: BungeroNewtons,
}

impl From<Result<Newtons, Refused<LoadEffect<Load>>>> for BungeroChecked {
    ghost from_gives = { λ answer checked. handed_out checked ≡ shown_checked (said_checked answer) };

    #[tactic(auto, unfolding(crate::specs::Exported::handed_out, crate::specs::Exported::shown_checked, effects::specs::Check::said_checked, effects::specs::Check::newtons_of))]
    fn from(answer: Result<Newtons, Refused<LoadEffect<Load>>>) -> BungeroChecked {
        match answer {
            Ok(newtons) => BungeroChecked {
                newtons: newtons.into(),
                ..BungeroChecked::default()
            },
            Err(refused) => BungeroChecked {
                number: refused.refusal.number(),
                place: refused.back.load.place(),
                double: refused.back.double,
                ..BungeroChecked::default()
            },
        }
    }
}

// Checks seven effects.
#[unsafe(no_mangle)]
pub extern "C" fn bungero_check(effects: BungeroEffects) -> BungeroChecked
    ensures { handed_out result ≡ shown_checked (checked_of (handed_in effects)) }
{
    effects::check(effects.into()).into()
}
