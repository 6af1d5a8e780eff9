// A column lent to be read, in the parts in which a caller may hold it.
ghost use Rattle.column.specs.Column.{column_from, Reached};

use crate::{Column, Member, Places};

// A member, how many lines it holds and their places, which make a reached column.
#[derive(Clone, Copy)]
pub struct ColumnRef<'a> {
    pub member: Member,
    pub count: u16,
    pub held: &'a Places,
    pub ghost reached: { ∥ Reached (column_from member count held.now) ∥₁ },
}

impl<'a> ColumnRef<'a> {
    ghost use Rattle.std.specs.Prelude.{◌≡◌, ◌≤◌, length, map, take};
    ghost use Rattle.column.specs.Line.{most_lines, unpacked};
    ghost use Rattle.column.specs.Column.{lines_of};
    ghost use Rattle.column.specs.Seen.{column_seen};

    // The numbers that hold its lines, without the unused places.
    #[tactic(auto, unfolding(crate::specs::Column::lines_of), using(crate::proofs::Seen::numbers_few))]
    pub fn numbers(self) -> &'a [u64]
        ensures numbers { result.now ≡ take self.entry.count self.entry.held.now }
        ensures lines { map unpacked result.now ≡ lines_of (column_seen self.entry) }
        ensures few { length result.now ≤ most_lines }
    {
        let held = self.held;
        &held[..self.count as usize]
    }
}

impl Column {
    ghost use Rattle.std.specs.Prelude.{◌≡◌};
    ghost use Rattle.column.specs.Seen.{column_seen};

    // The column, lent to be read.
    pub fn lend(&self) -> ColumnRef<'_>
        requires { Reached self.now }
        ensures { column_seen result ≡ self.now }
    {
        ColumnRef {
            member: self.member,
            count: self.count,
            held: &self.held,
        }
    }
}
