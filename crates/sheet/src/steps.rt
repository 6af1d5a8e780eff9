// One line of a sheet: what becomes of the sheet as far as it was read.
ghost use Rattle.std.specs.Prelude.{◌≡◌, ◌<◌};
ghost use Rattle.column.specs.Column.{unopened, Reached};
ghost use Rattle.refusal.specs.Said.{gives, number_told};
ghost use Rattle.sheet_lines.specs.Form.{effect_count};
ghost use Rattle.sheet.specs.Sheet.{unread, is_complete, valued, line_taken};
ghost use Rattle.sheet.specs.inner.SoFar.{KeepsSoFar};

use crate::Sheet;
use column::{Column, LINES, Line, Member};
use refusal::Refusal;
use sheet_lines::{Due, EFFECTS, Form};

// A sheet as far as it was read, and the line that is due.
#[derive(Clone, Copy)]
pub struct Draft {
    pub due: Due,
    pub sheet: Sheet,
}

impl Draft {
    // Before the first line: no member is opened, and all effects are 0.
    #[tactic(auto, unfolding(column::specs::Column::column_of))]
    pub fn unread() -> Self
        ensures { result ≡ unread }
    {
        Draft {
            due: Due::Member,
            sheet: Sheet {
                column: Column {
                    member: Member { code: 0 },
                    count: 0,
                    held: [0; LINES],
                },
                effects: [0; EFFECTS],
            },
        }
    }

    // Whether the sheet has all its lines.
    #[tactic(auto, unfolding(crate::specs::Sheet::is_complete))]
    pub fn is_complete(&self) -> bool
        ensures { result ≡ is_complete self.now.due }
    {
        match self.due {
            Due::Member => false,
            Due::Effect(place) => place >= EFFECTS,
        }
    }

    // Opens the member; no line is held before it, so the places are those of a column without lines.
    fn open_member(&mut self, code: u64) -> Result<(), Refusal>
        requires { self.old.sheet.column ≡ unopened }
        ensures { record { number = number_told result; draft = self.new } ≡ valued self.old (gives (Form.Member code)) }
    {
        self.sheet.column.member = Member::open(code)?;
        self.due = Due::Effect(0);
        Ok(())
    }

    // Enters a line on the column.
    fn enter_line(&mut self, line: Line) -> Result<(), Refusal>
        requires { Reached self.old.sheet.column }
        ensures { record { number = number_told result; draft = self.new } ≡ valued self.old (gives (Form.Floor line)) }
    {
        self.sheet.column.enter(line)?;
        self.due = Due::Effect(0);
        Ok(())
    }

    // Takes the effect at a place, where it is within the limit.
    fn take_effect(&mut self, place: usize, newtons: i64) -> Result<(), Refusal>
        requires { place < effect_count }
        ensures { record { number = number_told result; draft = self.new } ≡ valued self.old (gives (Form.Effect place newtons)) }
    {
        if !newtons::is_within(newtons) {
            return Err(Refusal::EffectOutOfRange);
        }
        self.sheet.effects[place] = newtons;
        self.due = Due::Effect(place + 1);
        Ok(())
    }

    // Takes a line, given without its newline: its form, then its values. As it was where the line is refused.
    pub fn take_line(&mut self, line: &[u8]) -> Result<(), Refusal>
        requires { KeepsSoFar self.old.due self.old.sheet }
        ensures { record { number = number_told result; draft = self.new } ≡ line_taken self.old line.now }
    {
        let form = sheet_lines::form_of(self.due, line)?;
        match form {
            Form::Member(code) => self.open_member(code),
            Form::Floor(entry) => self.enter_line(entry),
            Form::Effect { place, newtons } => self.take_effect(place, newtons),
        }
    }
}
