// The shares of all lines at a floor, as rates: a reduced load then takes one multiplication.
ghost use Rattle.std.specs.Prelude.{◌≡◌, true, ◌≤◌};
ghost use Rattle.member.specs.Between.{between};
ghost use Rattle.reduction.specs.Share.{other_twentieths};
ghost use Rattle.column.specs.Line.{unpacked};
ghost use Rattle.figure.specs.Carried.{is_formula_line, influence_from};
ghost use Rattle.figure.specs.inner.Rates.{twentieths_rate, rate_of};
ghost use Rattle.figure.specs.inner.Shared.{SharesOf, formula_load, figure_by};

use crate::line::HeldLine;
use crate::shares::Shares;
use column::Member;
use member::TributaryArea;
use reduction::{Carried, InfluenceArea};

// A share in units of 2⁻²⁶: of a load it is (load × times + plus) / 2²⁶, rounded down, unless load × doubt
// more would give another number.
#[derive(Clone, Copy)]
pub struct Rate {
    pub times: u64,
    pub plus: u64,
    pub doubt: u64,
}

// The unit of a rate, 2²⁶.
const UNIT: u64 = 67108864;

// A twentieth of the unit, rounded up.
const TWENTIETH: u64 = 3355444;

// 19 twentieths: added to so many twentieths of a load, they round up.
const ROUND_UP: u64 = 63753436;

// The unit of the root's scale, 2¹⁹: 4 × share is one unit and the scale.
const SCALE_UNIT: u64 = 524288;

// How much of a rate's unit one of a scale's is worth for the share: 2²⁶ / (4 × 2¹⁹).
const SCALE_WORTH: u64 = 32;

// The unit less that worth, which rounds up where the share is known to it.
const SCALE_ROUND_UP: u64 = 67108832;

// The last key of a formula line: class 1 and a load of 5,000.
const FORMULA_LAST: u64 = 70536;

// The first key of class 3.
const ASSEMBLY_FIRST: u64 = 196608;

// X of a member and an area. A column's member has a code, so its factor is never refused.
#[tactic(auto, unfolding(crate::specs::Carried::influence_from), using(refusal::proofs::Said::gives_it, refusal::proofs::Said::gives_ok, member::proofs::Member::factor_known, member::proofs::Member::factor_most))]
fn influence_of(member: Member, area: TributaryArea) -> InfluenceArea
    requires { (between 1 12 member.code ≡ true) × (area.0 ≤ 51200000) }
    ensures { result ≡ influence_from member area.0 }
{
    let factor = member::factor(member.code as u64).unwrap();
    InfluenceArea(factor * area.0)
}

// The rate of so many twentieths.
#[tactic(auto, unfolding(crate::specs::inner::Rates::twentieths_rate))]
fn twentieths_rate(twentieths: u64) -> Rate
    requires { twentieths ≤ 20 }
    ensures { result ≡ twentieths_rate twentieths }
{
    Rate {
        times: twentieths * TWENTIETH,
        plus: ROUND_UP,
        doubt: 0,
    }
}

// The rate of the formula lines' share. The root is in doubt by one of its scale.
#[tactic(auto, unfolding(crate::specs::inner::Rates::root_rate), using(crate::proofs::ByRate::rate_clamped, crate::proofs::ByRate::rate_root, reduction::proofs::Twentieths::clamped_most, reduction::proofs::Scales::root_where))]
fn formula_rate(carried: Carried) -> Rate
    ensures { result ≡ rate_of carried.floors carried.influence }
{
    if let Some(twentieths) = carried.clamped_twentieths() {
        return twentieths_rate(twentieths);
    }
    let scale = carried.root_scale().unwrap();
    Rate {
        times: (SCALE_UNIT + scale) * SCALE_WORTH,
        plus: SCALE_ROUND_UP,
        doubt: SCALE_WORTH,
    }
}

// The shares at so many floors, where the formula lines have this area. That the member has a code is asked by three, one
// of which calls the next; a type for it would be made in the first and taken apart in the last.
#[tactic(auto, unfolding(crate::specs::inner::Rates::twentieths_rate), using(reduction::proofs::Shares::heavy_within))]
pub fn shares_at(member: Member, floors: u64, area: TributaryArea) -> Shares
    requires { (between 1 12 member.code ≡ true) × (area.0 ≤ 51200000) }
    ensures { SharesOf floors (influence_from member area.0) result }
{
    let influence = influence_of(member, area);
    let carried = Carried { floors, influence };
    Shares {
        carried,
        clamped: carried.clamped_twentieths(),
        formula: formula_rate(carried),
        other: reduction::heavy_twentieths(floors) * TWENTIETH,
    }
}

// R of a formula line by a search, which few lines need. Its class and load are within their limits, so it is never refused.
#[tactic(auto, using(refusal::proofs::Said::gives_it, refusal::proofs::Said::gives_ok, member::proofs::Tests::in_limits, reduction::proofs::Reduced::reduced_known))]
#[cold]
#[inline(never)]
fn searched_load(load: u64, shares: Shares) -> u64
    requires { (1 ≤ load) × (load ≤ 5000) }
    ensures { result ≡ formula_load shares load }
{
    shares.carried.reduced_load(load, 1).unwrap()
}

// R of a formula line.
#[tactic(auto, using(crate::proofs::ByRate::times_most, crate::proofs::ByRate::low_most, crate::proofs::ByRate::doubts_most, crate::proofs::ByRate::formula_by))]
fn formula_load(load: u64, shares: Shares) -> u64
    requires { (1 ≤ load) × (load ≤ 5000) }
    ensures { result ≡ formula_load shares load }
{
    let rate = shares.formula;
    let low = load * rate.times + rate.plus;
    let reduced = low / UNIT;
    if (low + load * rate.doubt) / UNIT != reduced {
        return searched_load(load, shares);
    }
    reduced
}

impl HeldLine {
    // `times` of a line that the formula is not for: class 3 has the whole load.
    #[tactic(auto, unfolding(crate::specs::inner::Rates::twentieths_rate), using(crate::proofs::ByRate::key_other, crate::proofs::ByRate::key_assembly))]
    fn other_times(self, shares: Shares) -> u64
        ensures { result ≡ (twentieths_rate (other_twentieths (unpacked self.number).class shares.carried.floors)).times }
    {
        if column::key_of(self.number) < ASSEMBLY_FIRST {
            return shares.other;
        }
        20 * TWENTIETH
    }

    // Whether it is a formula line: class 1 and a load of at most 5,000.
    #[tactic(auto, using(crate::proofs::ByRate::key_formula))]
    pub fn is_formula(self) -> bool
        ensures { result ≡ is_formula_line (unpacked self.number) }
    {
        column::key_of(self.number) <= FORMULA_LAST
    }

    // R × area.
    #[tactic(auto, using(crate::proofs::ByRate::figure_other, crate::proofs::ByRate::other_most, crate::proofs::ByRate::formula_most))]
    pub fn figure(self, shares: Shares) -> u64
        ensures { (result ≡ figure_by shares (unpacked self.number)) × (result ≤ 10000000000) }
    {
        let line = column::line_of(self.number);
        if self.is_formula() {
            return formula_load(line.load, shares) * line.area.0;
        }
        (line.load * self.other_times(shares) + ROUND_UP) / UNIT * line.area.0
    }
}
