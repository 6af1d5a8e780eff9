// Entering and pasting in place, on the column that a member, a count and its lent places make. C lends the three apart, and
// but for the methods of a column only its calls come here.
ghost use Rattle.std.specs.Prelude.{◌≡◌, ◌+◌};
ghost use Rattle.column.specs.Line.{entries_of};
ghost use Rattle.column.specs.Accepted.{last_floor};
ghost use Rattle.column.specs.Column.{lines_of, column_from, entered_of, Reached, count_after, entered_outcome};
ghost use Rattle.column.specs.Pasted.{pasted_of, paste_outcome};

use crate::{Entries, Line, Member, Places, conditions, places};
use refusal::Refusal;

// What pasting gives: how many lines of the list were kept, and why the next one was not.
#[derive(Clone, Copy)]
pub struct PastedLines {
    pub kept: u16,
    pub refusal: Option<Refusal>,
}

// Enters a line where the floor of the last line is known.
#[tactic(auto, unfolding(crate::specs::Column::entered_outcome, crate::specs::Column::count_after, refusal::specs::Said::number_told), using(crate::proofs::InPlace::refused_in_place, crate::proofs::InPlace::joined_in_place, refusal::proofs::Said::number_positive))]
fn enter_below(
    held: &mut Places,
    member: Member,
    count: u16,
    last: u64,
    line: Line,
) -> Result<u16, Refusal>
    requires reached { Reached (column_from member count held.old) }
    requires last { last ≡ last_floor (lines_of (column_from member count held.old)) }
    ensures entered { entered_outcome member count result held.new ≡ entered_of (column_from member count held.old) line }
    ensures reached { Reached (column_from member (count_after count result) held.new) }
{
    conditions::check(member, count as u64, last, line)?;
    held[count as usize] = places::number_of(line);
    Ok(count + 1)
}

// Enters a line, and gives how many are then held; refused, with the places as they were, where a condition for
// entering a line holds.
#[tactic(auto, unfolding(crate::specs::Column::lines_of))]
pub fn enter(held: &mut Places, member: Member, count: u16, line: Line) -> Result<u16, Refusal>
    requires { Reached (column_from member count held.old) }
    ensures entered { entered_outcome member count result held.new ≡ entered_of (column_from member count held.old) line }
    ensures reached { Reached (column_from member (count_after count result) held.new) }
{
    let last = places::last_floor_of(held, count);
    enter_below(held, member, count, last, line)
}

// Pastes a lent list of numbers, four a line: enters its lines one after another, up to and with the first refused one. The
// lines before that one are kept, and those after it are not looked at.
pub fn paste(held: &mut Places, member: Member, count: u16, lines: &[u64]) -> PastedLines
    requires { Reached (column_from member count held.old) }
    ensures pasted { paste_outcome result (column_from member (count + result.kept) held.new) ≡ pasted_of (column_from member count held.old) (entries_of lines.now) }
    ensures reached { Reached (column_from member (count + result.kept) held.new) }
{
    let mut filled = count;
    let mut last = places::last_floor_of(held, count);
    for line in Entries(lines) {
        let entered = enter_below(held, member, filled, last, line);
        match entered {
            Ok(next) => filled = next,
            Err(refusal) => {
                return PastedLines {
                    kept: filled - count,
                    refusal: Some(refusal),
                };
            }
        }
        last = line.floor;
    }
    PastedLines {
        kept: filled - count,
        refusal: None,
    }
}
