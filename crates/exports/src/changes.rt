// Opening, entering and pasting for programs in C and Rust; a column is lent in its parts, and changed in place.
ghost use Rattle.std.specs.Prelude.{◌≡◌, []};
ghost use Rattle.column.specs.Line.{line, entries_of};
ghost use Rattle.column.specs.Column.{column_of, column_from, member_of, unopened, opened_of, opened_as, entered_of, Reached};
ghost use Rattle.column.specs.Pasted.{pasted_of};
ghost use Rattle.exports.specs.Changed.{outcome_of, opened_outcome, joined_outcome, pasted_outcome};

use column::{Column, LINES, Line, Member, Places, in_place};
use member::TributaryArea;
use refusal::Refusal;

// What opening a member gives: the paper's number, 0 where none holds, and the column, which is without a member where
// opening is refused.
#[repr(C)]
#[derive(Clone, Copy)]
pub struct BungeroOpened {
    pub number: u64,
    pub column: Column,
}

// What opening a member gives without its places: the paper's number, and the member.
#[repr(C)]
#[derive(Clone, Copy)]
pub struct BungeroOpenedMember {
    pub number: u64,
    pub member: Member,
}

// What entering in place gives: the paper's number, and how many lines are then held.
#[repr(C)]
#[derive(Clone, Copy)]
pub struct BungeroEntered {
    pub number: u64,
    pub count: u16,
}

// What pasting in place gives: the paper's number of the first refusal, 0 where there is none, how many lines
// of the list were kept, and how many lines are then held.
#[repr(C)]
#[derive(Clone, Copy)]
pub struct BungeroPasted {
    pub number: u64,
    pub kept: u16,
    pub count: u16,
}

// What stands in the column's place where opening is refused; no call takes it.
#[tactic(auto, unfolding(column::specs::Column::column_of))]
fn unopened() -> Column
    ensures { result ≡ unopened }
{
    Column {
        member: Member { code: 0 },
        count: 0,
        held: [0; LINES],
    }
}

impl From<Result<Column, Refusal>> for BungeroOpened {
    ghost from_gives = { λ answer opened. outcome_of opened ≡ opened_as (λ c. c) answer };

    // Compiled into the call, as opening is.
    #[inline(always)]
    #[tactic(auto, unfolding(crate::specs::Changed::outcome_of, column::specs::Column::opened_as))]
    fn from(answer: Result<Column, Refusal>) -> BungeroOpened {
        match answer {
            Ok(column) => BungeroOpened { number: 0, column },
            Err(refusal) => BungeroOpened {
                number: refusal.number(),
                column: unopened(),
            },
        }
    }
}

impl From<Result<Member, Refusal>> for BungeroOpenedMember {
    ghost from_gives = { λ answer opened. opened_outcome opened ≡ opened_as (λ m. column_of m []) answer };

    #[tactic(auto, unfolding(crate::specs::Changed::opened_outcome, column::specs::Column::opened_as, column::specs::Column::column_of))]
    fn from(answer: Result<Member, Refusal>) -> BungeroOpenedMember {
        match answer {
            Ok(member) => BungeroOpenedMember { number: 0, member },
            Err(refusal) => BungeroOpenedMember {
                number: refusal.number(),
                member: Member { code: 0 },
            },
        }
    }
}

// Opens a member.
#[tactic(auto, using(crate::proofs::Opened::reached_whole))]
#[unsafe(no_mangle)]
pub extern "C" fn bungero_open(code: u64) -> BungeroOpened
    ensures opened { outcome_of result ≡ opened_of (member_of code) }
    ensures reached { result.number ≡ 0 → Reached result.column }
{
    Column::open(code).into()
}

// Opens a member for a caller that has the places of its column itself, each of them 0.
#[tactic(auto, using(crate::proofs::Opened::reached_empty))]
#[unsafe(no_mangle)]
pub extern "C" fn bungero_open_member(code: u64) -> BungeroOpenedMember
    ensures opened { opened_outcome result ≡ opened_of (member_of code) }
    ensures reached { result.number ≡ 0 → Reached (column_of result.member []) }
{
    Member::open(code).into()
}

// Enters a line on the column of this member with so many lines, whose numbers are in the lent places. No `From` of what
// entering gives: where the line is refused the count is the caller's, which that has not.
#[tactic(auto, unfolding(crate::specs::Changed::joined_outcome, column::specs::Column::entered_outcome, column::specs::Column::count_after, refusal::specs::Said::number_told))]
#[unsafe(no_mangle)]
pub extern "C" fn bungero_enter(
    held: &mut Places,
    member: Member,
    count: u16,
    floor: u64,
    class: u64,
    load: u64,
    area: u64,
) -> BungeroEntered
    requires { Reached (column_from member count held.old) }
    ensures entered { joined_outcome member result held.new ≡ entered_of (column_from member count held.old) (line floor class load area) }
    ensures reached { Reached (column_from member result.count held.new) }
{
    let line = Line {
        floor,
        class,
        load,
        area: TributaryArea(area),
    };
    match in_place::enter(held, member, count, line) {
        Ok(count) => BungeroEntered { number: 0, count },
        Err(refusal) => BungeroEntered {
            number: refusal.number(),
            count,
        },
    }
}

// Pastes a list of lines, four numbers a line, on such a column: enters them in order, up to and with the first
// refused one. No `From` of what pasting gives: how many lines are then held is the caller's count and what was kept, and
// the caller's count that has not.
#[tactic(auto, unfolding(crate::specs::Changed::pasted_outcome, column::specs::Pasted::paste_outcome, column::specs::Pasted::number_or_0), using(column::proofs::InPlace::reached_few))]
#[unsafe(no_mangle)]
pub extern "C" fn bungero_paste(
    held: &mut Places,
    member: Member,
    count: u16,
    lines: &[u64],
) -> BungeroPasted
    requires { Reached (column_from member count held.old) }
    ensures pasted { pasted_outcome member result held.new ≡ pasted_of (column_from member count held.old) (entries_of lines.now) }
    ensures reached { Reached (column_from member result.count held.new) }
{
    let pasted = in_place::paste(held, member, count, lines);
    let filled = count + pasted.kept;
    BungeroPasted {
        number: pasted.refusal.map_or(0, |refusal| refusal.number()),
        kept: pasted.kept,
        count: filled,
    }
}
