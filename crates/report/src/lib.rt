// The report of a text: what takedown prints for a sheet that is read; and the line of a refusal.
#![tactic(auto)]

ghost use Rattle.std.specs.Prelude.{◌≡◌, length, IfOk};
ghost use Rattle.io.specs.Counts.{IsPrefixLen};
ghost use Rattle.text.specs.Put.{fronted};
ghost use Rattle.report.specs.Report.{put_of, reported_of, reported_told, refusal_text, report_of};

use refusal::Refused;
use text::Output;

mod lines;
mod takedown;

// The bytes of the buffer that a report is put into; no report has more than 3,960.
pub const ROOM: usize = 4096;

// The take-down of a sheet that is read: its last line K, and how many bytes were put, which C is told.
#[derive(Clone, Copy)]
pub struct TakenDown {
    pub line: u64,
    pub length: usize,
}

// Puts the take-down of a text at the front of a buffer. Where the sheet is refused nothing is put, the buffer is as it
// was, and the line K comes back.
#[tactic(auto, using(text::proofs::Puts::put_same))]
pub fn report(text: &[u8], out: &mut [u8; ROOM]) -> Result<TakenDown, Refused<u64>>
    ensures reported { reported_told result ≡ reported_of text.now }
    ensures put { out.new ≡ fronted (put_of text.now) out.old }
    ensures prefix_len { IfOk result (λ t. IsPrefixLen t.length out.new) }
{
    let reading = sheet::read(text);
    let line = reading.stop.line;
    if let Some(refusal) = reading.refusal {
        return Err(Refused {
            refusal,
            back: line,
        });
    }
    let mut output = Output { buffer: out, at: 0 };
    takedown::put_takedown(&mut output, reading.sheet.lend());
    Ok(TakenDown {
        line,
        length: output.at,
    })
}

// Puts the line that takedown prints for a refused sheet, of which only the number and the line K are
// known here, at the front of a buffer; gives how many bytes that is. It takes any number, and
// prints it: a Refusal would ask more of its caller.
#[tactic(auto, using(text::proofs::Puts::put_same))]
pub fn put_refusal(number: u64, line: u64, out: &mut [u8; ROOM]) -> usize
    ensures length { result ≡ length (refusal_text number line) }
    ensures put { out.new ≡ fronted (refusal_text number line) out.old }
    ensures prefix_len { IsPrefixLen result out.new }
{
    let mut output = Output { buffer: out, at: 0 };
    lines::put_refusal_line(&mut output, number, line);
    output.at
}

// Puts all that takedown prints for a text at the front of a buffer, its take-down or the line of its
// refusal; gives how many bytes that is.
// Lengths stay here and above: tried with the text as a part of the buffer, `&'a [u8]`, and `put` stays open, since the borrow
// checker proves no clause on what a lent array ends as (an `ensures*`).
pub fn put_printed(text: &[u8], out: &mut [u8; ROOM]) -> usize
    ensures length { result ≡ length (report_of text.now) }
    ensures put { out.new ≡ fronted (report_of text.now) out.old }
    ensures prefix_len { IsPrefixLen result out.new }
{
    match report(text, out) {
        Ok(taken) => taken.length,
        Err(refused) => put_refusal(refused.refusal.number(), refused.back, out),
    }
}
