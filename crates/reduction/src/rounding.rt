// The reduced load: a share of a load, rounded up once, with every comparison on whole numbers.
ghost use Rattle.std.specs.Prelude.{◌≡◌, ◌*◌, ◌-◌, ◌^◌, ◌≤◌};
ghost use Rattle.reduction.specs.declared.share.Share.TheVariants.{Twentieths, Root};
ghost use Rattle.reduction.specs.Reduced.{reaches, reduced};
ghost use Rattle.reduction.specs.inner.ShareBounds.{Fit};

use crate::scale::RootArea;
use crate::share::Share;

// So many twentieths of a load, rounded up.
#[tactic(auto, using(crate::proofs::Twentieths::twentieths_least))]
pub fn twentieths_of(k: u64, load: u64) -> u64
    requires { (k ≤ 20) × (load ≤ 50000) }
    ensures { result ≡ reduced (Twentieths k) load }
{
    (k * load + 19) / 20
}

// A load whose share is the root.
#[derive(Clone, Copy)]
struct RootLoad {
    area: RootArea,
    load: u64,
    ghost small: { load ≤ 5000 },
}

// The unit of a scale, 2²⁰.
const UNIT: u64 = 1048576;

// A scale counts quarters of a load: 4 × 2²⁰.
const FOUR_UNITS: u64 = 4194304;

impl RootLoad {
    // Whether r is not below the root's share of the load.
    #[tactic(auto, unfolding(crate::specs::Reduced::reaches))]
    fn reached(self, r: u64) -> bool
        requires { r ≤ self.load }
        ensures { result ≡ reaches (Root self.area.influence) self.load r }
    {
        if 4 * r < self.load {
            return false;
        }
        let above = 4 * r - self.load;
        let root_part = 914 * self.load;
        root_part * root_part <= 25 * self.area.influence.0 * (above * above)
    }

    // A guess at the reduced load: the share times the load, rounded up, with the root as the scale
    // has it. Nothing that is proved hangs on it.
    fn guess(self) -> u64
        ensures { result ≤ self.load }
    {
        let parts = self.load * UNIT + self.load * self.area.near_scale();
        (parts / FOUR_UNITS + 1).min(self.load)
    }

    // The first number from the guess on that reaches.
    fn raised(self) -> u64
        ensures { (reduced (Root self.area.influence) self.load ≤ result) × (result ≤ self.load) }
    {
        (self.guess()..self.load)
            .find(|r| self.reached(*r))
            .unwrap_or(self.load)
    }

    // The reduced load: going down from a number that reaches, it stands above the first that does not. The
    // exact tests alone decide it; the scale only says where they begin.
    fn rounded(self) -> u64
        ensures { result ≡ reduced (Root self.area.influence) self.load }
    {
        (0..self.raised())
            .rev()
            .find(|r| !self.reached(*r))
            .map_or(0, |r| r + 1)
    }
}

// The reduced load. Only the root needs a search.
#[tactic(auto, using(crate::proofs::Fits::fit_twentieths, crate::proofs::Fits::fit_root))]
pub fn rounded(share: Share, load: u64) -> u64
    requires { Fit share load }
    ensures { result ≡ reduced share load }
{
    match share {
        Share::Twentieths(k) => twentieths_of(k, load),
        Share::Root(influence) => {
            let area = RootArea { influence };
            RootLoad { area, load }.rounded()
        }
    }
}
