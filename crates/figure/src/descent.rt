// What holds at every floor, in one walk down the lines: a reached column has them in floor order.
ghost use Rattle.std.specs.Prelude.{◌≡◌, true, [], ◌++◌, ◌≤◌, length};
ghost use Rattle.member.specs.Between.{between};
ghost use Rattle.column.specs.Line.{lowest_floor};
ghost use Rattle.column.specs.Column.{lines_of};
ghost use Rattle.column.specs.Seen.{column_seen};
ghost use Rattle.figure.specs.Lowest.{lowest_figure};
ghost use Rattle.figure.specs.Workings.{workings_of};
ghost use Rattle.figure.specs.inner.Totals.{areas, figures};

use crate::lines::{Lines, floor_of};
use crate::shares::Shares;
use crate::{FLOORS, Table, Working, rates};
use column::{ColumnRef, Member};
use member::TributaryArea;

// How far down the walk has come: the lines carried, the floor of the last of them, and what holds there.
#[derive(Clone, Copy)]
struct Descent<'a> {
    carried: Lines<'a>,
    floor: u64,
    area: TributaryArea,
    shares: Shares,
    figure: u64,
    ghost area_is: { area.0 ≡ areas carried.numbers.now },
    ghost figure_is: { figure ≡ figures shares carried.numbers.now },
}

impl<'a> Descent<'a> {
    ghost use Rattle.figure.specs.inner.Descent.{left, RunAt, working_put, Descended, NextOf};

    // Above the first line, where none is carried.
    fn top(lines: Lines<'a>, member: Member) -> Descent<'a>
        requires { between 1 12 member.code ≡ true }
        ensures { Descended member lines.entry.numbers.now result × (result.carried.numbers.now ≡ []) × (result.floor ≡ 0) }
    {
        let area = TributaryArea(0);
        Descent {
            carried: lines.first(0),
            floor: 0,
            area,
            shares: rates::shares_at(member, 0, area),
            figure: 0,
        }
    }

    // The figure where more lines are carried. Where every line has the share that it had above, only the new ones
    // are summed; a root is taken to differ, for X may have grown.
    fn figure_with(self, new: Lines<'a>, carried: Lines<'a>, here: Shares) -> u64
        requires lines { self.carried.numbers.now ++ new.numbers.now ≡ carried.numbers.now }
        requires shares { self.shares.carried.floors ≤ here.carried.floors }
        ensures { result ≡ figures here carried.entry.numbers.now }
    {
        let before = self.shares;
        if 2 <= before.carried.floors && here.clamped.is_some() && before.clamped == here.clamped {
            return self.figure + new.figure(here);
        }
        carried.figure(here)
    }

    // One floor further down: the lines of the next floor that has any are carried too.
    fn next(self, lines: Lines<'a>, member: Member, new: Lines<'a>) -> Descent<'a>
        requires { Descended member lines.numbers.now self × RunAt (left lines.numbers.now self.carried) new.numbers.now }
        ensures { NextOf member lines.entry.numbers.now self.entry new.entry.numbers.now result }
    {
        let carried = lines.first(self.carried.numbers.len() + new.numbers.len());
        let sum = self.area.0 + new.area().0;
        let area = TributaryArea(sum);
        let here = rates::shares_at(member, self.shares.carried.floors + 1, area);
        Descent {
            carried,
            floor: floor_of(new.numbers[0]),
            area,
            shares: here,
            figure: self.figure_with(new, carried, here),
        }
    }

    // Puts what holds at its floor into its place.
    fn put_in(self, table: &mut Table)
        requires { (length table.old ≡ lowest_floor) × (1 ≤ self.floor) × (self.floor ≤ lowest_floor) }
        ensures { table.new ≡ working_put table.old self.entry }
    {
        table[self.floor as usize - 1] = Some(Working {
            floors: self.shares.carried.floors,
            influence: self.shares.carried.influence,
            figure: self.figure,
        });
    }
}

// Puts what holds at every floor from 1 to 64; none at a floor without lines. Gives the figure at
// the lowest floor, where all lines are carried.
pub fn work_out_all(column: ColumnRef<'_>, table: &mut Table) -> u64
    ensures workings { table.new ≡ workings_of (column_seen column.entry) lowest_floor }
    ensures lowest { result ≡ lowest_figure column.entry.member (lines_of (column_seen column.entry)) }
{
    *table = [None; FLOORS];
    let lines = Lines::of(column);
    let mut here = Descent::top(lines, column.member);
    for new in lines
        .numbers
        .chunk_by(|above, line| floor_of(*above) == floor_of(*line))
    {
        here = here.next(lines, column.member, Lines { numbers: new });
        here.put_in(table);
    }
    here.figure
}
