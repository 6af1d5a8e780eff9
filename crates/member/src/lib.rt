// A member and its lines: the factor of a member, limits, and which lines are reduced by the formula.
#![tactic(auto)]

ghost use Rattle.std.specs.Prelude.{◌≡◌};
ghost use Rattle.refusal.specs.Said.{said};
ghost use Rattle.member.specs.Member.{factor_of};
ghost use Rattle.member.specs.Line.{is_formula};

use refusal::Refusal;

pub mod limits;

// The floor area whose load a member carries, in dm².
#[repr(C)]
#[derive(Clone, Copy)]
pub struct TributaryArea(pub u64);

// Table 4.2: the factors of the codes 1 to 12, in order.
const FACTORS: [u64; 12] = [4, 4, 3, 2, 2, 2, 1, 1, 1, 1, 1, 1];

// The factor K of a member's code; refused where there is no such code.
#[tactic(auto, unfolding(crate::specs::Member::factor_of, crate::specs::Member::table4_2, refusal::specs::Said::said, refusal::specs::Refusal::number_of), using(crate::proofs::Member::factor_row))]
pub fn factor(code: u64) -> Result<u64, Refusal>
    ensures { said result ≡ factor_of code }
{
    if !limits::is_between(1, 12, code) {
        return Err(Refusal::UnknownCode);
    }
    let row = (code - 1) as usize;
    Ok(FACTORS[row])
}

// Whether a line's load is reduced by the formula.
#[tactic(auto, unfolding(crate::specs::Line::is_formula))]
pub fn is_formula(load: u64, class: u64) -> bool
    ensures { result ≡ is_formula load class }
{
    class == 1 && load <= 5000
}
