// The list call: the figure of a lent list of line records, or the number and place of the first refusal.
#![tactic(auto)]

ghost use Rattle.std.specs.Prelude.{◌≡◌};
ghost use Rattle.refusal.specs.Said.{said, told};
ghost use Rattle.column.specs.Column.{member_of};
ghost use Rattle.records.specs.Listed.{at_place, listed_of, Bounds};

use column::{Column, Line};
use figure::Working;
use refusal::{Refusal, Refused};

mod entering;

// What opening or asking gave. Lines have the places 1, 2 and so on; the papers have the place 0 where the code or the floor
// is refused.
#[tactic(auto, unfolding(crate::specs::Listed::at_place, refusal::specs::Said::said, refusal::specs::Said::told))]
fn without_place<T>(answer: Result<T, Refusal>) -> Result<T, Refused<u64>>
    ensures { told result ≡ at_place 0 (said answer) }
{
    answer.map_err(|refusal| Refused { refusal, back: 0 })
}

// n, X and the figure at a floor of a member with these lines, none of them refused; else the first
// refusal and its place: the code's, then the lines' in order, as entering them would give it, then the floor's.
pub fn figure_of(code: u64, lines: &[Line], floor: u64) -> Result<Working, Refused<u64>>
    ensures { (told result ≡ listed_of (member_of code) lines.now floor) × Bounds (member_of code) lines.now floor (told result) }
{
    let mut column = without_place(Column::open(code))?;
    entering::enter_all(&mut column, lines)?;
    without_place(figure::ask_in(column.lend(), floor))
}
