// The places of a column, a line in each as one number.
ghost use Rattle.std.specs.Prelude.{◌≡◌};
ghost use Rattle.column.specs.Accepted.{last_floor};
ghost use Rattle.column.specs.Line.{packed};
ghost use Rattle.column.specs.inner.Sound.{InLimits, Held, lines_before};

use crate::{Line, Places};

// The number that holds a line.
pub fn number_of(line: Line) -> u64
    requires { InLimits line }
    ensures { result ≡ packed line }
{
    line.floor * 1125899906842624
        + line.class * 281474976710656
        + line.load * 4294967296
        + line.area.0
}

// The floor of the last of so many lines; 0 where there is none, which no floor is below, so that no test is needed for it.
#[tactic(auto, using(crate::proofs::Lines::last_none, crate::proofs::Lines::last_some))]
pub fn last_floor_of(held: &Places, count: u16) -> u64
    requires { Held held.now count }
    ensures { result ≡ last_floor (lines_before held.now count) }
{
    if count == 0 {
        return 0;
    }
    let at = count as usize - 1;
    crate::line_of(held[at]).floor
}
