// A text sheet read into a column and six effects, line by line; and the part of a text that is refused.
#![tactic(auto)]

ghost use Rattle.std.specs.Prelude.{◌≡◌, None};
ghost use Rattle.refusal.specs.Refusal.{number_of};
ghost use Rattle.sheet.specs.declared.steps.Draft.{Draft};
ghost use Rattle.sheet.specs.Sheet.{unread, reading, reading_told, read_sheet, offending_of, offending_at};
ghost use Rattle.sheet.specs.Keeps.{Keeps};
ghost use Rattle.sheet.specs.inner.Stopped.{reading_of};

use column::Column;
use memchr::memchr_iter;
use refusal::{Refusal, Refused};
use sheet_lines::EFFECTS;
use steps::Draft;

mod lent;
mod steps;

pub use lent::SheetRef;

// The most bytes that a sheet may have.
pub const LONGEST: usize = 32768;

// What a sheet says: a column, and six effects in newtons, dead to quake; live is worked out from the column.
#[repr(C)]
#[derive(Clone, Copy)]
pub struct Sheet {
    pub column: Column,
    pub effects: [i64; EFFECTS],
}

// A part of a text, from one place to before another. No `Range`, which is not Copy, as what reading gives is.
#[derive(Clone, Copy)]
pub struct Part {
    pub start: usize,
    pub end: usize,
}

// Where reading stops: the line K, which is the last line where the sheet is read; and where in the text the part stands
// that is handed back.
#[derive(Clone, Copy)]
pub struct Stop {
    pub line: u64,
    pub part: Part,
}

// What reading gives: the refusal, if the sheet is refused; and in both cases where reading stops, and the sheet as far as
// it was read.
#[derive(Clone, Copy)]
pub struct ReadSheet {
    pub refusal: Option<Refusal>,
    pub stop: Stop,
    pub sheet: Sheet,
}

// The refusal of a line, with the part that is handed back.
#[tactic(auto, unfolding(crate::specs::inner::Stopped::reading_of))]
fn refused(refusal: Refusal, line: u64, start: usize, end: usize) -> Result<Stop, Refused<Stop>>
    ensures { (draft : Draft) → reading_of result draft ≡ reading (number_of refusal) line start end draft }
{
    Err(Refused {
        refusal,
        back: Stop {
            line,
            part: Part { start, end },
        },
    })
}

// Reads a sheet line by line, each its form and then its values, into a draft on which nothing is read yet. By the places of
// its newlines, which take 3.1 to 3.7 µs for 262 lines of 41 bytes, where the lines by `split_inclusive` take 6.9 to 8.2 µs.
fn read_in(draft: &mut Draft, text: &[u8]) -> Result<Stop, Refused<Stop>>
    requires { draft.old ≡ unread }
    ensures { reading_of result draft.new ≡ read_sheet text.now }
{
    if text.len() > LONGEST {
        return refused(Refusal::SheetTooLong, 0, 0, 0);
    }
    let mut at = 0;
    let mut line: u64 = 0;
    for end in memchr_iter(b'\n', text) {
        if let Err(refusal) = draft.take_line(&text[at..end]) {
            return refused(refusal, line + 1, at, end);
        }
        at = end + 1;
        line += 1;
    }
    if at < text.len() {
        return refused(Refusal::SheetMalformed, line + 1, at, text.len());
    }
    if draft.is_complete() {
        let part = Part { start: at, end: at };
        return Ok(Stop { line, part });
    }
    refused(Refusal::SheetMalformed, line + 1, at, at)
}

// Reads a sheet line by line, each its form and then its values. That it keeps the limits is said once, of the answer: the
// report, and C's answer, take it from here.
pub fn read(text: &[u8]) -> ReadSheet
    ensures read { reading_told result ≡ read_sheet text.now }
    ensures keeps { result.refusal ≡ None → Keeps result.sheet }
{
    let mut draft = Draft::unread();
    let (refusal, stop) = match read_in(&mut draft, text) {
        Ok(stop) => (None, stop),
        Err(refused) => (Some(refused.refusal), refused.back),
    };
    ReadSheet {
        refusal,
        stop,
        sheet: draft.sheet,
    }
}

// The part of a text that is refused, without its newline, in the text's own memory; the empty part at
// the end where a line is missing or the sheet is read, and at the start where the text is too long.
pub fn offending(text: &[u8]) -> &[u8]
    ensures part { result.now ≡ offending_of text.now }
    ensures place { result.ref_ptr ≡ offending_at text.entry.ref_ptr text.now }
{
    let part = read(text).stop.part;
    &text[part.start..part.end]
}
