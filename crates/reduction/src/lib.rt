// CIRSOC 101, 4.7: the share of a live load, and the reduced load.
#![tactic(auto)]

ghost use Rattle.std.specs.Prelude.{◌≡◌, true, IfSome, ◌≤◌};
ghost use Rattle.member.specs.Line.{is_formula};
ghost use Rattle.refusal.specs.Said.{said};
ghost use Rattle.reduction.specs.declared.InfluenceArea.{InfluenceArea};
ghost use Rattle.reduction.specs.Share.{clamped_of, heavy_twentieths, other_twentieths};
ghost use Rattle.reduction.specs.Reduced.{reduced_of};
ghost use Rattle.reduction.specs.Scale.{scale_of};
ghost use Rattle.reduction.specs.inner.Class.{class_number};

use class::Class;
use member::limits;
use refusal::Refusal;
use scale::RootArea;
use share::Share;

mod class;
mod rounding;
mod scale;
mod share;

// The area that the reduction goes by: K times the summed tributary area of the formula lines
// carried, in dm².
#[derive(Clone, Copy)]
pub struct InfluenceArea(pub u64);

// What the lines carried at a floor are reduced by: how many floors they have, n, and their influence area, X.
#[derive(Clone, Copy)]
pub struct Carried {
    pub floors: u64,
    pub influence: InfluenceArea,
}

impl Carried {
    // The share of the formula lines, in twentieths, where it is clamped.
    #[tactic(auto, unfolding(crate::specs::Share::clamped_of, crate::specs::Share::clamped_share))]
    pub fn clamped_twentieths(self) -> Option<u64>
        ensures { result ≡ clamped_of self.floors self.influence }
    {
        match self.formula_share() {
            Share::Twentieths(k) => Some(k),
            Share::Root(_) => None,
        }
    }

    // The root part of 4 × share in units of 2⁻¹⁹, rounded down, for all formula lines, where their
    // share is not clamped. By it most reduced loads need no search.
    #[tactic(auto, unfolding(crate::specs::Scale::scale_of, crate::specs::Scale::share_scale), using(crate::proofs::Fits::formula_root, crate::proofs::Scales::scale_most))]
    pub fn root_scale(self) -> Option<u64>
        ensures scale { result ≡ scale_of self.floors self.influence }
        ensures small { IfSome result (λ scale. scale ≤ 1572863) }
    {
        let formula = self.formula_share();
        match formula {
            Share::Twentieths(_) => None,
            Share::Root(x) => Some(RootArea { influence: x }.rounded_down()),
        }
    }

    // The reduced load R of a line; refused where the class or the load is outside its limits. The
    // papers leave 0 floors free: it is then that of one floor.
    #[tactic(auto, unfolding(refusal::specs::Said::said), using(crate::proofs::Fits::formula_fit, crate::proofs::Fits::formula_reduced))]
    pub fn reduced_load(self, load: u64, class: u64) -> Result<u64, Refusal>
        ensures { said result ≡ reduced_of load class self.floors self.influence }
    {
        // a formula line with a load is within its limits
        if member::is_formula(load, class) && 0 < load {
            return Ok(rounding::rounded(self.formula_share(), load));
        }
        other_load(load, class, self.floors)
    }
}

// The share of class 2, and of class 1 above 5,000, in twentieths.
#[tactic(auto, unfolding(crate::specs::Share::one_floor))]
pub fn heavy_twentieths(floors: u64) -> u64
    ensures { result ≡ heavy_twentieths floors }
{
    if floors <= 1 {
        return 20;
    }
    16
}

// The share of a line that the formula is not for, in twentieths: public assembly has the whole load.
#[tactic(auto, unfolding(crate::specs::Share::other_twentieths))]
fn other_twentieths(class: Class, floors: u64) -> u64
    ensures { result ≡ other_twentieths (class_number class) floors }
{
    match class {
        Class::Assembly => 20,
        Class::Ordinary | Class::Garage => heavy_twentieths(floors),
    }
}

// The reduced load R of a line that the formula is not for, or of one without a load, whatever the influence
// area; refused where the class or the load is outside its limits.
#[tactic(auto, unfolding(refusal::specs::Said::said, refusal::specs::Refusal::number_of, crate::specs::Reduced::reduced_of), using(crate::proofs::Fits::other_reduced, crate::proofs::Shares::other_within, crate::proofs::Classes::class_between, member::proofs::Tests::limits))]
fn other_load(load: u64, class: u64, floors: u64) -> Result<u64, Refusal>
    requires { is_formula load class ≡ true → load ≡ 0 }
    ensures { (x : InfluenceArea) → said result ≡ reduced_of load class floors x }
{
    let class = Class::try_from(class)?;
    if !limits::is_between(1, 50000, load) {
        return Err(Refusal::LoadOutOfRange);
    }
    Ok(rounding::twentieths_of(other_twentieths(class, floors), load))
}
