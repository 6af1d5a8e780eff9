// Prints the report of each sheet of standard input, the part that is refused, and of one that is read
// whether it is the same when it is written back. Before each sheet stands a line `sheet` and the number
// of its bytes. Its stored output is the second reckoning's.
#![tactic(auto)]

ghost use Rattle.std.specs.Prelude.{◌≡◌};
ghost use Rattle.sheet.specs.Keeps.{EffectsWithin};
ghost use Rattle.sheet.specs.Seen.{sheet_seen};
ghost use Rattle.sheet_text.specs.Written.{written};
ghost use Rattle.refusal.specs.Said.{gives};
ghost use Rattle.sheet_writer.specs.Saving.{six_checked};

use sheet::{Part, SheetRef};
use sheet_writer::SheetDoubles;
use std::io;
use std::io::{BufWriter, Read, Write};

// More than the stored sheets take.
const ROOM: usize = 1048576;

// The six effects of a sheet as they are handed to the writer. No From: it would stand in sheet_writer for this trial alone.
#[tactic(auto, using(crate::proofs::Doubles::exact))]
fn doubles_of(sheet: SheetRef<'_>) -> SheetDoubles
    requires { EffectsWithin sheet.effects }
    ensures { six_checked result ≡ gives sheet.entry.effects }
{
    let [dead, roof, snow, rain, wind, quake] = sheet.effects;
    SheetDoubles {
        dead: dead as f64,
        roof: roof as f64,
        snow: snow as f64,
        rain: rain as f64,
        wind: wind as f64,
        quake: quake as f64,
    }
}

// Writes a sheet that was read, and gives its text. None is refused, so the empty text stands for what cannot be.
fn put_back<'a>(sheet: SheetRef<'_>, back: &'a mut [u8; sheet_writer::ROOM]) -> &'a [u8]
    requires { EffectsWithin sheet.effects }
    ensures { result.now ≡ written (sheet_seen sheet.entry) }
{
    match sheet_writer::write(sheet.column, doubles_of(sheet), back) {
        Ok(length) => &back[..length],
        Err(_) => &[],
    }
}

// Prints how many bytes a sheet that was read has when it is written back, and whether they are its text.
fn write_back<W: Write>(out: &mut W, text: &[u8], sheet: SheetRef<'_>) -> io::Result<()>
    requires { EffectsWithin sheet.effects }
{
    let mut back = [0u8; sheet_writer::ROOM];
    let written = put_back(sheet, &mut back);
    let word = if text == written { "same" } else { "other" };
    writeln!(out, "written={} {word}", written.len())
}

// Prints the report of a sheet, then where the part that is refused starts and ends, and the part; and of a
// sheet that is read what it is when it is written back.
fn answer<W: Write>(out: &mut W, text: &[u8]) -> io::Result<()> {
    let mut printed = [0u8; report::ROOM];
    let size = report::put_printed(text, &mut printed);
    out.write_all(&printed[..size])?;
    let reading = sheet::read(text);
    let Part { start, end } = reading.stop.part;
    write!(out, "start={start} end={end} part=")?;
    out.write_all(sheet::offending(text))?;
    writeln!(out)?;
    match reading.refusal {
        None => write_back(out, text, reading.sheet.lend()),
        Some(_) => Ok(()),
    }
}

// The number that a line `sheet` gives, behind its first six bytes; leading digits past a million are dropped, since no
// text is so long. None where another byte than a digit stands there.
fn size_from(line: &[u8]) -> Option<usize> {
    let mut size: usize = 0;
    for byte in line.iter().skip(6) {
        if !byte.is_ascii_digit() {
            return None;
        }
        size = size % 1_000_000 * 10 + (*byte - b'0') as usize;
    }
    Some(size)
}

// Answers for every sheet; a sheet that is cut short is not read, and one whose line says no number has no bytes.
fn answer_all<W: Write>(out: &mut W, text: &[u8]) -> io::Result<()> {
    let mut rest = text;
    while !rest.is_empty() {
        let Some(end) = rest.iter().position(|byte| *byte == b'\n') else {
            return writeln!(out, "unread");
        };
        let size = size_from(&rest[..end]).unwrap_or(0);
        let sheets = &rest[end + 1..];
        if size > sheets.len() {
            return writeln!(out, "unread");
        }
        answer(out, &sheets[..size])?;
        rest = &sheets[size..];
    }
    Ok(())
}

// Reads all sheets, then answers. The trials begin alike; a crate for these lines would be
// longer than they are.
fn main(rt: HostRuntime) -> io::Result<()> {
    let mut text = Vec::new(rt.alloc());
    rt.reader().take(ROOM as u64).read_to_end(&mut text)?;
    if text.len() == ROOM {
        return eprintln!(rt; "trial_sheet: too many sheets");
    }
    let mut out = BufWriter::new(rt.alloc(), io::writer(&rt))?;
    answer_all(&mut out, &text)?;
    out.flush()
}
