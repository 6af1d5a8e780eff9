// What holds at a floor: a reached column has its lines in floor order, so those carried stand first.
ghost use Rattle.std.specs.Prelude.{◌≡◌, map};
ghost use Rattle.refusal.specs.Said.{said};
ghost use Rattle.column.specs.Line.{unpacked};
ghost use Rattle.column.specs.Seen.{column_seen};
ghost use Rattle.figure.specs.Carried.{floors_of};
ghost use Rattle.figure.specs.Asked.{asked};
ghost use Rattle.figure.specs.inner.Front.{FrontOf};

use crate::lines::{Lines, floor_of};
use crate::{Working, rates};
use column::ColumnRef;
use refusal::Refusal;

impl<'a> Lines<'a> {
    // The lines carried at a floor, and none where no line has that floor.
    fn carried_at(self, floor: u64) -> Option<Lines<'a>>
        ensures { FrontOf floor self.entry.numbers.now result }
    {
        let end = self
            .numbers
            .partition_point(|line| floor_of(*line) <= floor);
        let carried = self.first(end);
        let last = carried.numbers.last()?;
        if floor_of(*last) != floor {
            return None;
        }
        Some(carried)
    }

    // How many floors they have: a floor is new where it is not that of the line before. By chunk_by and count, in plain
    // Rust, 256 lines take 238 ns for 88 by this loop, and asking would be above plain Rust.
    fn floors(self) -> u64
        ensures { result ≡ floors_of (map unpacked self.entry.numbers.now) }
    {
        let mut floors: u64 = 0;
        let mut above: u64 = 0;
        for line in self.numbers {
            let here = column::line_of(*line);
            if here.floor != above {
                floors += 1;
            }
            above = here.floor;
        }
        floors
    }
}

// n, X and the figure at a floor; refused where no line has that floor.
pub fn asked_at(column: ColumnRef<'_>, floor: u64) -> Result<Working, Refusal>
    ensures { said result ≡ asked (column_seen column.entry) floor }
{
    let lines = Lines::of(column);
    let carried = lines.carried_at(floor).ok_or(Refusal::NoLineAtFloor)?;
    let shares = rates::shares_at(column.member, carried.floors(), carried.area());
    let figure = carried.figure(shares);
    Ok(Working {
        floors: shares.carried.floors,
        influence: shares.carried.influence,
        figure,
    })
}
