// The conditions for entering a line, in the order in which they are checked.
ghost use Rattle.std.specs.Prelude.{◌≡◌, ◌<◌, IfOk};
ghost use Rattle.column.specs.Accepted.{first_condition};
ghost use Rattle.column.specs.Line.{most_lines};
ghost use Rattle.column.specs.inner.Sound.{InLimits};
ghost use Rattle.refusal.specs.Said.{number_told};

use crate::{Line, Member};
use member::limits;
use refusal::Refusal;

// The most lines, as wide as a count.
const MOST_LINES: u64 = crate::LINES as u64;

// Refuses a line by the first condition that holds for it, where a member holds so many lines and the last one has
// this floor; one that is accepted is within its limits, and there is room for it. None of paper 01's looks at the member.
#[tactic(auto, unfolding(crate::specs::Accepted::first_condition, refusal::specs::Said::number_told, refusal::specs::Refusal::number_of), using(member::proofs::Tests::limits))]
pub fn check(member: Member, count: u64, last: u64, line: Line) -> Result<(), Refusal>
    ensures number { number_told result ≡ first_condition member count last line }
    ensures accepted { IfOk result (λ _. (count < most_lines) × InLimits line) }
{
    if MOST_LINES <= count {
        return Err(Refusal::TooManyLines);
    }
    if !limits::is_between(1, crate::LOWEST_FLOOR, line.floor) {
        return Err(Refusal::FloorOutOfRange);
    }
    if line.floor < last {
        return Err(Refusal::FloorOutOfRange);
    }
    if !limits::is_between(1, 3, line.class) {
        return Err(Refusal::UnknownClass);
    }
    if !limits::is_between(1, 50000, line.load) {
        return Err(Refusal::LoadOutOfRange);
    }
    if !limits::is_between(1, 200000, line.area.0) {
        return Err(Refusal::AreaOutOfRange);
    }
    Ok(())
}
