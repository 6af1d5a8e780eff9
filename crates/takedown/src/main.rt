// Reads a sheet from standard input and prints its take-down.
#![tactic(auto)]

ghost use Rattle.std.specs.Prelude.{◌≡◌, ◌<◌, length, take};
ghost use Rattle.io.specs.Counts.{IsPrefixLen};
ghost use Rattle.sheet.specs.Sheet.{longest};
ghost use Rattle.report.specs.Report.{report_of};

use std::env::{Env, FillError};
use std::io::{IsTerminal, Write};

// One byte more than a sheet may have, which tells a longer text from it.
const ROOM: usize = sheet::LONGEST + 1;

// Puts all that is printed for the text at the start of a buffer, and gives it. The buffer has room for
// more than the longest sheet, so that no longer text is cut to one: that is asked of the whole buffer, so
// it comes with the count of its bytes that were read.
#[tactic(auto, using(text::proofs::Puts::fronted_take))]
fn put_printed<'a>(buffer: &[u8], count: usize, out: &'a mut [u8; report::ROOM]) -> &'a [u8]
    requires { IsPrefixLen count buffer.now × (longest < length buffer.now) }
    ensures printed { result.now ≡ report_of (take count buffer.now) }
{
    let size = report::put_printed(&buffer[..count], out);
    &out[..size]
}

// Whether words stand behind the program's name on its command line. std's `args` would take memory from
// the heap.
fn has_words(rt: &impl Env) -> bool {
    let mut word = [0u8; 1];
    !matches!(rt.arg(1, &mut word), Err(FillError::NotPresent))
}

// Says how the program is used, to whoever gives it words on its command line.
fn say_usage(rt: &impl Eprint) {
    let _ = eprintln!(rt; "usage: takedown < SHEET");
    let _ = eprintln!(rt; "It reads a sheet from standard input, and takes no arguments.");
}

// Says what is awaited, to whoever sits at a terminal.
fn say_awaited(rt: &impl Eprint) {
    let _ = eprintln!(rt; "takedown: type a sheet, and end it by Ctrl-D at the start of a line");
}

// Reads, reports and writes; what fails is said on standard error. With words on the command line nothing
// is read.
fn main(rt: HostRuntime) {
    if has_words(&rt) {
        say_usage(&rt);
        return;
    }
    if rt.stdin().is_terminal() {
        say_awaited(&rt);
    }
    let mut text = [0u8; ROOM];
    let input = input::read_from(&mut rt.stdin(), &mut text);
    if let Err(error) = input.ending {
        let _ = eprintln!(rt; "takedown: reading standard input: {error}");
        return;
    }
    let mut out = [0u8; report::ROOM];
    let printed = put_printed(&text, input.count, &mut out);
    if let Err(error) = rt.stdout().write_all(printed) {
        let _ = eprintln!(rt; "takedown: writing standard output: {error}");
    }
}
