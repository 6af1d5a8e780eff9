// The writer of sheets: the text of a column and six effects, put into a lent buffer.
#![tactic(auto)]

ghost use Rattle.std.specs.Prelude.{◌≡◌, leb, length, IfOk};
ghost use Rattle.io.specs.Counts.{IsPrefixLen};
ghost use Rattle.text.specs.Put.{fronted};
ghost use Rattle.refusal.specs.Said.{gives, told};
ghost use Rattle.column.specs.Seen.{column_seen};
ghost use Rattle.sheet.specs.Keeps.{EffectsWithin};
ghost use Rattle.sheet.specs.Seen.{sheet_seen};
ghost use Rattle.sheet_text.specs.Written.{written};
ghost use Rattle.sheet_writer.specs.Saving.{six_checked, if_whole, if_room, saving, saved_text, sized};

use column::ColumnRef;
use effects::LoadEffect;
use refusal::{Refusal, Refused};
use sheet::SheetRef;
use sheet_lines::EFFECTS;
use text::Output;

mod counted;
mod lines;

// The bytes of a buffer that suffice for every sheet; none that is written has more than 10,371.
pub const ROOM: usize = 12288;

// The six effects of a sheet in newtons, as C hands them over: a call for C takes no generic struct.
#[repr(C)]
#[derive(Clone, Copy)]
pub struct SheetDoubles {
    pub dead: f64,
    pub roof: f64,
    pub snow: f64,
    pub rain: f64,
    pub wind: f64,
    pub quake: f64,
}

// An effect of a sheet that is refused: the place of its load, 1 for dead to 6 for quake, and its double as it came.
pub type Placed = LoadEffect<u64>;

// The six effects of a sheet in whole newtons, checked dead to quake.
fn whole_effects(effects: SheetDoubles) -> Result<[i64; EFFECTS], Refused<Option<Placed>>>
    ensures { told result ≡ if_whole (six_checked effects) (λ zs. gives zs) }
{
    effects::check_each([
        LoadEffect::new(1, effects.dead),
        LoadEffect::new(2, effects.roof),
        LoadEffect::new(3, effects.snow),
        LoadEffect::new(4, effects.rain),
        LoadEffect::new(5, effects.wind),
        LoadEffect::new(6, effects.quake),
    ])
    .map_err(|refused| Refused {
        refusal: refused.refusal,
        back: Some(refused.back),
    })
}

// Whether a buffer of so many bytes has room for a sheet. One that suffices for every sheet is not held
// against this one.
fn fits(sheet: SheetRef<'_>, room: usize) -> bool
    requires { EffectsWithin sheet.effects }
    ensures { result ≡ leb (length (written (sheet_seen sheet.entry))) room }
{
    let suffices = room >= ROOM;
    suffices || counted::sheet_length(sheet) <= room
}

// Writes a sheet; the buffer is as it was where it is too short.
#[tactic(auto, using(text::proofs::Puts::put_same))]
fn write_whole(sheet: SheetRef<'_>, out: &mut [u8]) -> Result<usize, Refused<Option<Placed>>>
    requires { EffectsWithin sheet.effects }
    ensures answered { told result ≡ sized (if_room (length out.old) (written (sheet_seen sheet.entry))) }
    ensures put { out.new ≡ fronted (saved_text (if_room (length out.old) (written (sheet_seen sheet.entry)))) out.old }
    ensures prefix_len { IfOk result (λ n. IsPrefixLen n out.new) }
{
    if !fits(sheet, out.len()) {
        return Err(Refused {
            refusal: Refusal::BufferTooShort,
            back: None,
        });
    }
    let mut output = Output { buffer: out, at: 0 };
    lines::put_sheet(&mut output, sheet);
    Ok(output.at)
}

// Writes the sheet of a column and six effects to the front of a buffer, and gives how many bytes that is. Where an
// effect is refused, or else the buffer is shorter than the text, nothing is put: the buffer is as it was.
pub fn write(
    column: ColumnRef<'_>,
    effects: SheetDoubles,
    out: &mut [u8],
) -> Result<usize, Refused<Option<Placed>>>
    ensures answered { told result ≡ sized (saving (column_seen column.entry) effects (length out.old)) }
    ensures put { out.new ≡ fronted (saved_text (saving (column_seen column.entry) effects (length out.old))) out.old }
    ensures prefix_len { IfOk result (λ n. IsPrefixLen n out.new) }
{
    let effects = whole_effects(effects)?;
    let sheet = SheetRef { column, effects };
    write_whole(sheet, out)
}
