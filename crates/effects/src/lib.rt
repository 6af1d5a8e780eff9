// The effects of loads, handed over as doubles and checked: whole newtons, or the first that is refused.
#![tactic(auto)]

ghost use Rattle.std.specs.Prelude.{◌≡◌, [], map};
ghost use Rattle.refusal.specs.Said.{gives, told};
ghost use Rattle.newtons.specs.Effect.{effect_of};
ghost use Rattle.effects.specs.Check.{loads, place_of, of_load, newtons_of, load_effect, if_given, checked_from, checked_of, said_checked};

use refusal::Refused;

// The loads, with their places in the order of checking.
#[derive(Clone, Copy, PartialEq, Eq)]
pub enum Load {
    Dead = 1,
    Live = 2,
    Roof = 3,
    Snow = 4,
    Rain = 5,
    Wind = 6,
    Quake = 7,
}

impl Load {
    // The place of a load's effect in the order of checking, 1 to 7.
    #[tactic(auto, using(crate::proofs::Places::numbered))]
    pub fn place(self) -> u64
        ensures { result ≡ place_of self }
    {
        self as u64
    }
}

// A number for each of the seven loads.
#[derive(Clone, Copy)]
pub struct PerLoad<T> {
    pub dead: T,
    pub live: T,
    pub roof: T,
    pub snow: T,
    pub rain: T,
    pub wind: T,
    pub quake: T,
}

// The effects of the seven loads in newtons, as an analysis program hands them over.
pub type Effects = PerLoad<f64>;

// The same in whole newtons.
pub type Newtons = PerLoad<i64>;

impl<T: Copy> PerLoad<T> {
    // That of one load.
    #[tactic(auto, unfolding(crate::specs::Check::of_load))]
    pub fn of(self, load: Load) -> T
        ensures { result ≡ of_load self load }
    {
        match load {
            Load::Dead => self.dead,
            Load::Live => self.live,
            Load::Roof => self.roof,
            Load::Snow => self.snow,
            Load::Rain => self.rain,
            Load::Wind => self.wind,
            Load::Quake => self.quake,
        }
    }

    // Those of all seven, in the order of checking.
    #[tactic(auto, unfolding(crate::specs::Check::of_load))]
    pub fn in_order(self) -> [T; 7]
        ensures { result ≡ map (of_load self) loads }
    {
        [
            self.dead, self.live, self.roof, self.snow, self.rain, self.wind, self.quake,
        ]
    }
}

// The effect of one load, as it came. The load is named as who hands it over names it: itself, or its place on a sheet.
#[derive(Clone, Copy)]
pub struct LoadEffect<L> {
    pub load: L,
    pub double: f64,
}

impl<L: Copy> LoadEffect<L> {
    // The effect of a load.
    pub fn new(load: L, double: f64) -> LoadEffect<L>
        ensures { result ≡ load_effect load double }
    {
        LoadEffect { load, double }
    }
}

// The effect of one load in whole newtons, or its refusal.
#[inline(always)]
fn whole_of<L: Copy>(effect: LoadEffect<L>) -> Result<i64, Refused<LoadEffect<L>>>
    ensures { told result ≡ if_given effect (effect_of effect.double) (λ z. gives z) }
{
    newtons::whole_of(effect.double)
        .checked()
        .map_err(|refused| Refused {
            refusal: refused.refusal,
            back: LoadEffect::new(effect.load, refused.back),
        })
}

// Each of so many effects in whole newtons, checked in turn, or the first that is refused. The library's try_map says of its
// error only that some element gives it, and not that it is the first; and after `iter_mut().zip(..)` nothing is known of an array.
pub fn check_each<L: Copy, const N: usize>(
    effects: [LoadEffect<L>; N],
) -> Result<[i64; N], Refused<LoadEffect<L>>>
    ensures { told result ≡ checked_from [] effects }
{
    let mut newtons = [0; N];
    for (i, effect) in effects.iter().enumerate() {
        newtons[i] = whole_of(*effect)?;
    }
    Ok(newtons)
}

// The seven effects in whole newtons, checked dead to quake, or the first that is refused.
pub fn check(effects: Effects) -> Result<Newtons, Refused<LoadEffect<Load>>>
    ensures { said_checked result ≡ checked_of effects }
{
    let [dead, live, roof, snow, rain, wind, quake] = check_each([
        LoadEffect::new(Load::Dead, effects.dead),
        LoadEffect::new(Load::Live, effects.live),
        LoadEffect::new(Load::Roof, effects.roof),
        LoadEffect::new(Load::Snow, effects.snow),
        LoadEffect::new(Load::Rain, effects.rain),
        LoadEffect::new(Load::Wind, effects.wind),
        LoadEffect::new(Load::Quake, effects.quake),
    ])?;
    Ok(PerLoad {
        dead,
        live,
        roof,
        snow,
        rain,
        wind,
        quake,
    })
}
