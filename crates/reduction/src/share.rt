// The share of a live load that is left after the reduction.
ghost use Rattle.std.specs.Prelude.{◌≡◌};
ghost use Rattle.reduction.specs.Share.{formula_share};

use crate::{Carried, InfluenceArea};

// What a load is multiplied by: so many twentieths, or 1/4 + 45.7/√X.
#[derive(Clone, Copy)]
pub enum Share {
    Twentieths(u64),
    Root(InfluenceArea),
}

// The last influence area at which the formula gives 1 or more: 225 X is at most 914².
const CAP_LAST: u64 = 3712;
// The first at which it gives at most 1/2: 25 X is at least 914².
const HALF_FIRST: u64 = 33416;
// The first at which it gives at most 2/5: 9 X is at least 914².
const TWO_FIFTHS_FIRST: u64 = 92822;

impl Carried {
    // The share of the formula lines: at most 1, at least 1/2 for one floor and 2/5 for more.
    #[tactic(auto, using(crate::proofs::Shares::formula_capped, crate::proofs::Shares::one_held, crate::proofs::Shares::one_root, crate::proofs::Shares::more_held, crate::proofs::Shares::more_root))]
    pub(crate) fn formula_share(self) -> Share
        ensures { result ≡ formula_share self.floors self.influence }
    {
        let influence = self.influence.0;
        if influence <= CAP_LAST {
            return Share::Twentieths(20);
        }
        if self.floors <= 1 {
            if HALF_FIRST <= influence {
                return Share::Twentieths(10);
            }
            return Share::Root(self.influence);
        }
        if TWO_FIFTHS_FIRST <= influence {
            return Share::Twentieths(8);
        }
        Share::Root(self.influence)
    }
}
