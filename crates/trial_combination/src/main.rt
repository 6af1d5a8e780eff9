// Answers questions about effects and load combinations, one a line of standard input: a word, then
// the bits of one double, of seven, or of seven whole numbers. Its stored output is the second
// reckoning's.
#![tactic(auto)]

use print::Answer;
use std::io;
use std::io::{BufWriter, Read, Write};

mod doubles;
mod print;

// More than the stored questions take.
const ROOM: usize = 1048576;

// What a line asks, told by its length and first letter: `whole` and a double, `combine` and seven, or
// `govern` and seven whole numbers.
fn answer_of(line: &[u8]) -> Option<Answer> {
    match (line.first()?, line.len()) {
        (b'w', 22) => {
            let double = doubles::double_from(&line[6..22])?;
            Some(Answer::Whole(newtons::whole_of(double).checked()))
        }
        (b'c', 126) => {
            let effects = doubles::seven_from(&line[8..126], doubles::double_from)?;
            Some(Answer::Combine(combination::combine(effects)))
        }
        (b'g', 125) => {
            let newtons = doubles::seven_from(&line[7..125], doubles::whole_from)?;
            Some(Answer::Govern(combination::govern(newtons)))
        }
        _ => None,
    }
}

// Answers one line. One that asks nothing is `unread`.
fn answer<W: Write>(out: &mut W, line: &[u8]) -> io::Result<()> {
    match answer_of(line) {
        Some(answer) => writeln!(out, "{answer}"),
        None => writeln!(out, "unread"),
    }
}

// Answers every line of a text, the last with or without its newline.
fn answer_all<W: Write>(out: &mut W, text: &[u8]) -> io::Result<()> {
    for line in text.split_inclusive(|byte| *byte == b'\n') {
        answer(out, line.strip_suffix(b"\n").unwrap_or(line))?;
    }
    Ok(())
}

// Reads all questions, then answers them. The trials begin alike; a crate for these lines would be
// longer than they are.
fn main(rt: HostRuntime) -> io::Result<()> {
    let mut text = Vec::new(rt.alloc());
    rt.reader().take(ROOM as u64).read_to_end(&mut text)?;
    if text.len() == ROOM {
        return eprintln!(rt; "trial_combination: too many questions");
    }
    let mut out = BufWriter::new(rt.alloc(), io::writer(&rt))?;
    answer_all(&mut out, &text)?;
    out.flush()
}
