// A member, its lines and the column that holds them: opening, entering and pasting.
#![tactic(auto)]

ghost use Rattle.std.specs.Prelude.{◌≡◌, ◌+◌, [], IfOk};
ghost use Rattle.refusal.specs.Said.{number_told};
ghost use Rattle.column.specs.Line.{entries_of, unpacked, key_of};
ghost use Rattle.column.specs.Column.{column_of, member_of, opened_of, entered_of, Reached, opened_as};
ghost use Rattle.column.specs.Pasted.{pasted_of, paste_outcome};

pub use entries::Entries;
use in_place::PastedLines;
pub use lent::ColumnRef;
use member::{TributaryArea, limits};
use refusal::Refusal;

mod conditions;
mod entries;
pub mod in_place;
mod lent;
mod places;

// The most lines that a member holds.
pub const LINES: usize = 256;

// The lowest floor that a line can have; the top one is 1.
pub const LOWEST_FLOOR: u64 = 64;

// The places of a column's lines, each line as one number.
pub type Places = [u64; LINES];

// A line as a caller hands it over, each number as wide as it comes: C may hand over any, so that a class is one only once
// it is checked.
#[repr(C)]
#[derive(Clone, Copy)]
pub struct Line {
    pub floor: u64,
    pub class: u64,
    pub load: u64,
    pub area: TributaryArea,
}

// What is known of a member beside its lines. C hands the code over as a number, so any may come; no call takes 0.
#[repr(C)]
#[derive(Clone, Copy)]
pub struct Member {
    pub code: u8,
}

// A member and its accepted lines, in the order in which they were entered. A count beside the places, since there is no heap
// and C keeps a column in its own memory; and no ghost field says that it is reached, since C hands it over as it is.
#[repr(C)]
#[derive(Clone, Copy)]
pub struct Column {
    pub member: Member,
    pub count: u16,
    pub held: Places,
}

// The line that a number holds. No `From`: then any number would pass for a line, and the way back asks for limits.
#[tactic(auto, unfolding(crate::specs::Line::unpacked))]
pub fn line_of(number: u64) -> Line
    ensures { result ≡ unpacked number }
{
    Line {
        floor: number / 1125899906842624,
        class: number / 281474976710656 % 4,
        load: number / 4294967296 % 65536,
        area: TributaryArea(number % 16777216),
    }
}

// The class and the load of the line that a number holds, as one number in their order.
pub fn key_of(number: u64) -> u64
    ensures { result ≡ key_of number }
{
    number / 4294967296 % 262144
}

impl Member {
    // Opens a member with this code, for a caller with places of its own; refused where there is no such code.
    #[tactic(auto, unfolding(crate::specs::Column::opened_as, crate::specs::Column::opened_of, refusal::specs::Refusal::number_of))]
    pub fn open(code: u64) -> Result<Member, Refusal>
        ensures { opened_as (λ m. column_of m []) result ≡ opened_of (member_of code) }
    {
        if !limits::is_between(1, 12, code) {
            return Err(Refusal::UnknownCode);
        }
        Ok(Member { code: code as u8 })
    }
}

impl Column {
    // The column of a member with this code, without lines; refused where there is no such code. Compiled into its callers, so
    // that it is made where it is to stand: a call for C copied its 2 KB once more, and took a quarter longer.
    #[inline(always)]
    #[tactic(auto, unfolding(crate::specs::Column::opened_as, crate::specs::Column::column_of))]
    pub fn open(code: u64) -> Result<Column, Refusal>
        ensures opened { opened_as (λ c. c) result ≡ opened_of (member_of code) }
        ensures reached { IfOk result Reached }
    {
        let member = Member::open(code)?;
        Ok(Column {
            member,
            count: 0,
            held: [0; LINES],
        })
    }

    // Enters a line; refused, with the column as it was, where a condition for entering a line holds.
    #[tactic(auto, unfolding(crate::specs::Column::entered_outcome, crate::specs::Column::count_after, refusal::specs::Said::number_told))]
    pub fn enter(&mut self, line: Line) -> Result<(), Refusal>
        requires { Reached self.old }
        ensures entered { record { number = number_told result; column = self.new } ≡ entered_of self.old line }
        ensures reached { Reached self.new }
    {
        let count = in_place::enter(&mut self.held, self.member, self.count, line)?;
        self.count = count;
        Ok(())
    }

    // Pastes a lent list of numbers, four a line: enters its lines one after another, up to and with the first refused one.
    // The lines before that one are kept, and those after it are not looked at.
    pub fn paste(&mut self, lines: &[u64]) -> PastedLines
        requires { Reached self.old }
        ensures pasted { paste_outcome result self.new ≡ pasted_of self.old (entries_of lines.now) }
        ensures reached { Reached self.new }
    {
        let pasted = in_place::paste(&mut self.held, self.member, self.count, lines);
        let filled = self.count + pasted.kept;
        self.count = filled;
        pasted
    }
}
