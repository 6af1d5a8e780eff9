// The figure after a whole list of entries, with demand 3 of the paper.
#![tactic(auto)]

ghost use Rattle.std.specs.Prelude.{◌≡◌, ◌≤◌, ◌<◌, ◌/◌, length};
ghost use Rattle.refusal.specs.Refusal.{number_of};
ghost use Rattle.refusal.specs.Said.{said};
ghost use Rattle.column.specs.Accepted.{accepted};
ghost use Rattle.column.specs.Column.{member_of, after, Reached};
ghost use Rattle.column.specs.Line.{entries_of};
ghost use Rattle.error_bound.specs.Entries.{asked_after, refusals_of, refusals_after, refusals_told};
ghost use Rattle.error_bound.specs.inner.Counting.{numbers_on, noted_of};
ghost use Rattle.error_bound.specs.Claim.{Claim};

use column::{Column, Entries};
use figure::Working;
use refusal::{Refusal, Refused};

// The entries of a list that were refused: how many, and why the first was, with its place, counted from 1.
#[derive(Clone, Copy)]
pub struct Refusals {
    pub count: u64,
    pub first: Option<Refused<u64>>,
}

// What a whole list of entries gives: what asking gives after it, and which entries were refused.
#[derive(Clone, Copy)]
pub struct AfterList {
    pub asked: Result<Working, Refusal>,
    pub refusals: Refusals,
}

// No entry that was refused.
const NO_REFUSALS: Refusals = Refusals {
    count: 0,
    first: None,
};

impl Refusals {
    // Notes one more refused entry, at this place.
    #[tactic(auto, using(crate::proofs::Counting::noted))]
    fn note(&mut self, refusal: Refusal, place: u64)
        requires { self.old.count < place }
        ensures { (refusals_told self.new ≡ noted_of (refusals_told self.old) (number_of refusal) place) × (self.new.count ≤ place) }
    {
        let first = self.first.unwrap_or(Refused {
            refusal,
            back: place,
        });
        self.count += 1;
        self.first = Some(first);
    }
}

// Enters every entry of a list of numbers, four an entry, going on past refused ones.
#[tactic(auto, using(column::proofs::EntriesFrom::entries_length))]
fn enter_all(column: &mut Column, entries: &[u64]) -> Refusals
    requires { Reached column.old }
    ensures column { (column.new ≡ after column.old (entries_of entries.now)) × Reached column.new }
    ensures refusals { refusals_told result ≡ refusals_of (numbers_on column.old (entries_of entries.now)) }
{
    let mut refusals = NO_REFUSALS;
    let mut place = 0;
    for line in Entries(entries) {
        place += 1;
        if let Err(refusal) = column.enter(line) {
            refusals.note(refusal, place);
        }
    }
    refusals
}

// Opens a member, enters every entry of a list of numbers, four an entry, going on past refused ones,
// and asks at a floor; tells too which were refused. One to three numbers left over at the end of the list
// are no entry.
#[tactic(auto, unfolding(column::specs::Column::opened_as), using(crate::proofs::Counting::refusals_opened))]
pub fn figure_after(code: u64, entries: &[u64], floor: u64) -> AfterList
    ensures asked { said result.asked ≡ asked_after (member_of code) (entries_of entries.now) floor }
    ensures claim { Claim (member_of code) (accepted (member_of code) (entries_of entries.now)) floor (said result.asked) }
    ensures refusals { refusals_told result.refusals ≡ refusals_after (member_of code) (entries_of entries.now) }
{
    match Column::open(code) {
        Ok(mut column) => {
            let refusals = enter_all(&mut column, entries);
            AfterList {
                asked: figure::ask_in(column.lend(), floor),
                refusals,
            }
        }
        Err(refusal) => AfterList {
            asked: Err(refusal),
            refusals: NO_REFUSALS,
        },
    }
}
