// Asking a column at a floor, or working out all floors: how many are carried, the influence area and the figure.
#![tactic(auto)]

ghost use Rattle.std.specs.Prelude.{◌≡◌};
ghost use Rattle.column.specs.Line.{lowest_floor};
ghost use Rattle.column.specs.Column.{lines_of, Reached};
ghost use Rattle.column.specs.Seen.{column_seen};
ghost use Rattle.refusal.specs.Said.{said};
ghost use Rattle.figure.specs.Asked.{asked};
ghost use Rattle.figure.specs.Lowest.{lowest_figure};
ghost use Rattle.figure.specs.Workings.{workings_of};

use column::{Column, ColumnRef};
use reduction::InfluenceArea;
use refusal::Refusal;

mod any_order;
mod at_floor;
mod descent;
mod line;
mod lines;
mod rates;
mod shares;
mod sums;

// How many floors there can be.
pub const FLOORS: usize = column::LOWEST_FLOOR as usize;

// What holds at every floor, top first; none where no line has the floor.
pub type Table = [Option<Working>; FLOORS];

// What holds at a floor: the number n of distinct floors carried, the influence area X, and the
// figure in hundredths of a newton. With a Carried for n and X, the two functions that make one would be shorter, and
// each line that reads them longer.
#[derive(Clone, Copy)]
pub struct Working {
    pub floors: u64,
    pub influence: InfluenceArea,
    pub figure: u64,
}

// n, X and the figure at a floor, asked in place; refused where no accepted line has that floor.
pub fn ask_in(column: ColumnRef<'_>, floor: u64) -> Result<Working, Refusal>
    ensures { said result ≡ asked (column_seen column.entry) floor }
{
    at_floor::asked_at(column, floor)
}

// n, X and the figure at a floor; refused where no accepted line has that floor.
pub fn ask(column: Column, floor: u64) -> Result<Working, Refusal>
    requires { Reached column }
    ensures { said result ≡ asked column floor }
{
    ask_in(column.lend(), floor)
}

// n, X and the figure at every floor from 1 to 64; none at a floor that no accepted line has. Gives the figure
// at the lowest floor, 0 without lines, as the paper works live out.
pub fn work_out(column: ColumnRef<'_>, table: &mut Table) -> u64
    ensures workings { table.new ≡ workings_of (column_seen column.entry) lowest_floor }
    ensures lowest { result ≡ lowest_figure column.entry.member (lines_of (column_seen column.entry)) }
{
    descent::work_out_all(column, table)
}
