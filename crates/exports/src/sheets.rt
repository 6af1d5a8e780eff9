// The reader and the writer of sheets for programs in C and Rust.
ghost use Rattle.std.specs.Prelude.{◌≡◌, length};
ghost use Rattle.io.specs.Counts.{IsPrefixLen};
ghost use Rattle.text.specs.Put.{fronted};
ghost use Rattle.column.specs.Column.{column_from, Reached};
ghost use Rattle.sheet.specs.Sheet.{read_sheet, reading_told};
ghost use Rattle.sheet.specs.Keeps.{Keeps};
ghost use Rattle.exports.specs.Exported.{shown_reading, shown_written, written_told};
ghost use Rattle.sheet_writer.specs.Saving.{saving, saved_of, saved_text};

use column::{ColumnRef, Member, Places};
use effects::LoadEffect;
use refusal::Refused;
use sheet::{ReadSheet, Sheet};
use sheet_writer::{Placed, SheetDoubles};

// What reading gives: the number of the refusal, 0 where the sheet is read; the line K, which is the
// last line where it is read; where the offending part starts and ends; and the sheet, as far as it
// was read.
#[repr(C)]
#[derive(Clone, Copy)]
pub struct BungeroReading {
    pub number: u64,
    pub line: u64,
    pub start: usize,
    pub end: usize,
    pub sheet: Sheet,
}

impl From<ReadSheet> for BungeroReading {
    ghost from_gives = { λ answer reading. reading ≡ shown_reading (reading_told answer) };

    #[tactic(auto, unfolding(crate::specs::Exported::shown_reading, sheet::specs::Sheet::reading_told, column::specs::Pasted::number_or_0))]
    fn from(answer: ReadSheet) -> BungeroReading {
        BungeroReading {
            number: answer.refusal.map_or(0, |refusal| refusal.number()),
            line: answer.stop.line,
            start: answer.stop.part.start,
            end: answer.stop.part.end,
            sheet: answer.sheet,
        }
    }
}

// Reads a text as a sheet.
#[unsafe(no_mangle)]
pub extern "C" fn bungero_read(text: &[u8]) -> BungeroReading
    ensures read { result ≡ shown_reading (read_sheet text.now) }
    ensures keeps { result.number ≡ 0 → Keeps result.sheet }
{
    sheet::read(text).into()
}

// What writing gives: the number of the refusal, 0 where the sheet is written; the place of the refused
// effect, 1 for dead to 6 for quake, and its double as it came; and how many bytes were put. The rest is 0. The header names
// these one by one, as those of BungeroChecked.
#[repr(C)]
#[derive(Clone, Copy)]
pub struct BungeroWritten {
    pub number: u64,
    pub place: u64,
    pub double: f64,
    pub length: usize,
}

impl From<Result<usize, Refused<Option<Placed>>>> for BungeroWritten {
    ghost from_gives = { λ answer given. given ≡ shown_written (written_told answer) };

    #[tactic(auto, unfolding(crate::specs::Exported::shown_written, crate::specs::Exported::written_told))]
    fn from(answer: Result<usize, Refused<Option<Placed>>>) -> BungeroWritten {
        match answer {
            Ok(length) => BungeroWritten {
                number: 0,
                place: 0,
                double: 0.0,
                length,
            },
            Err(Refused { refusal, back }) => {
                let effect = back.unwrap_or(LoadEffect {
                    load: 0,
                    double: 0.0,
                });
                BungeroWritten {
                    number: refusal.number(),
                    place: effect.load,
                    double: effect.double,
                    length: 0,
                }
            }
        }
    }
}

// Writes the sheet of a column, lent in its parts, and six effects to the front of a buffer; nothing where
// it is refused.
#[unsafe(no_mangle)]
pub extern "C" fn bungero_write(
    held: &Places,
    member: Member,
    count: u16,
    effects: SheetDoubles,
    out: &mut [u8],
) -> BungeroWritten
    requires { Reached (column_from member count held.now) }
    ensures written { result ≡ shown_written (saved_of (saving (column_from member count held.now) effects (length out.old))) }
    ensures put { out.new ≡ fronted (saved_text (saving (column_from member count held.now) effects (length out.old))) out.old }
    ensures prefix_len { IsPrefixLen result.length out.new }
{
    let column = ColumnRef {
        member,
        count,
        held,
    };
    sheet_writer::write(column, effects, out).into()
}
