// The takedown of a sheet that keeps the limits: its floors, and then the rows that govern.
ghost use Rattle.std.specs.Prelude.{◌≡◌};
ghost use Rattle.text.specs.inner.Texts.{put};
ghost use Rattle.newtons.specs.Effect.{limit};
ghost use Rattle.effects.specs.Check.{newtons_of};
ghost use Rattle.effects.specs.inner.Sized.{Seven};
ghost use Rattle.combination.specs.Combine.{governing};
ghost use Rattle.column.specs.Line.{lowest_floor};
ghost use Rattle.column.specs.Column.{lines_of};
ghost use Rattle.column.specs.Seen.{column_seen};
ghost use Rattle.figure.specs.Lowest.{lowest_figure};
ghost use Rattle.sheet.specs.Keeps.{EffectsWithin};
ghost use Rattle.sheet.specs.Seen.{sheet_seen};
ghost use Rattle.report.specs.Report.{effects_of, governing_lines, takedown_of};
ghost use Rattle.report.specs.inner.Table.{line_of, table_lines};

use crate::lines;
use effects::Newtons;
use figure::{FLOORS, Table, Working};
use sheet::SheetRef;
use text::Output;

// Puts the line of a floor, and nothing where no line has that floor.
fn put_floor(output: &mut Output, floor: u64, working: Option<Working>)
    ensures { output.new ≡ put output.old (line_of floor working) }
{
    if let Some(working) = working {
        lines::put_floor_line(output, floor, working);
    }
}

// Puts the lines of all floors, top first.
fn put_floors(output: &mut Output, table: &Table)
    ensures { output.new ≡ put output.old (table_lines table.now lowest_floor) }
{
    for (above, working) in table.iter().enumerate() {
        put_floor(output, above as u64 + 1, *working);
    }
}

// The seven effects of a sheet in whole newtons: its six, and live, which is the figure at the lowest floor, rounded up.
fn newtons_with(sheet: SheetRef<'_>, lowest: u64) -> Newtons
    requires within { EffectsWithin sheet.effects }
    requires lowest { lowest ≡ lowest_figure sheet.column.member (lines_of (column_seen sheet.column)) }
    ensures { result ≡ effects_of (sheet_seen sheet.entry) }
{
    let [dead, roof, snow, rain, wind, quake] = sheet.effects;
    let live = lowest.div_ceil(100) as i64;
    Newtons {
        dead,
        live,
        roof,
        snow,
        rain,
        wind,
        quake,
    }
}

// Puts the lines of the greatest and the least sum. The effects are within the limit, so none is
// refused.
fn put_governing(output: &mut Output, newtons: Newtons)
    requires { Seven limit (newtons_of newtons) }
    ensures { output.new ≡ put output.old (governing_lines (governing (newtons_of newtons))) }
{
    let Ok(governing) = combination::govern(newtons) else {
        unreachable!()
    };
    lines::put_governing_line(output, b"max=", governing.greatest);
    lines::put_governing_line(output, b"min=", governing.least);
}

// Puts all that is printed of a sheet.
pub fn put_takedown(output: &mut Output, sheet: SheetRef<'_>)
    requires { EffectsWithin sheet.effects }
    ensures { output.new ≡ put output.old (takedown_of (sheet_seen sheet.entry)) }
{
    let mut table = [None; FLOORS];
    let lowest = figure::work_out(sheet.column, &mut table);
    put_floors(output, &table);
    put_governing(output, newtons_with(sheet, lowest));
}
