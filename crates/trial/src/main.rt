// Answers questions about factors, reduced loads and columns, one a line of standard input: a word,
// then numbers. Its stored output is the second reckoning's.
#![tactic(auto)]

use crate::columns::State;
use crate::questions::Question;
use reduction::Carried;
use std::alloc::Global;
use std::io;
use std::io::{BufWriter, Read, Write};

mod columns;
mod print;
mod questions;

// More than the stored questions take.
const ROOM: usize = 1048576;

// Answers a question.
fn answer<W: Write>(out: &mut W, state: &mut State, question: Question) -> io::Result<()> {
    match question {
        Question::Factor(code) => print::print_answer(out, "factor", member::factor(code)),
        Question::Reduced {
            load,
            class,
            floors,
            influence,
        } => {
            let carried = Carried { floors, influence };
            print::print_answer(out, "reduced", carried.reduced_load(load, class));
        }
        Question::Open(code) => print::print_number(out, state.open(code)),
        Question::Enter(line) => {
            state.keep(line)?;
            print::print_number(out, state.enter(line));
        }
        Question::Ask(floor) => print::print_asked(out, state.ask(floor)),
        Question::List { floor, off } => print::print_after(out, state.list(floor, off)),
    }
    Ok(())
}

// Answers every line of a text, the last with or without its newline; a line that asks nothing is `unread`.
fn answer_all<W: Write>(alloc: Global, out: &mut W, text: &[u8]) -> io::Result<()> {
    let mut state = State::new(alloc);
    for line in text.split_inclusive(|byte| *byte == b'\n') {
        let line = line.strip_suffix(b"\n").unwrap_or(line);
        match questions::read(alloc, line)? {
            Some(question) => answer(out, &mut state, question)?,
            None => print::unread(out),
        }
    }
    Ok(())
}

// Reads all questions, then answers them. The trials begin alike; a crate for these lines would be
// longer than they are.
fn main(rt: HostRuntime) -> io::Result<()> {
    let mut text = Vec::new(rt.alloc());
    rt.reader().take(ROOM as u64).read_to_end(&mut text)?;
    if text.len() == ROOM {
        return eprintln!(rt; "trial: too many questions");
    }
    let mut out = BufWriter::new(rt.alloc(), io::writer(&rt))?;
    answer_all(rt.alloc(), &mut out, &text)?;
    let _ = out.flush();
    Ok(())
}
