// Prints answers, a line each. A write that fails is passed over.
use error_bound::AfterList;
use figure::Working;
use refusal::Refusal;
use std::fmt;
use std::io::Write;

// What asking at a floor gave: n, X and the figure, or the number of the refusal.
#[derive(Clone, Copy)]
struct AtFloor(Result<Working, Refusal>);

impl fmt::Display for AtFloor {
    fn fmt<W: fmt::Write>(&self, f: &mut fmt::Formatter<W>) -> fmt::Result {
        match self.0 {
            Ok(working) => {
                let floors = working.floors;
                let influence = working.influence.0;
                let figure = working.figure;
                write!(f, "floors={floors} influence={influence} figure={figure}")
            }
            Err(refusal) => {
                let number = refusal.number();
                write!(f, "refused={number}")
            }
        }
    }
}

// A line that asks nothing.
pub fn unread<W: Write>(out: &mut W) {
    let _ = writeln!(out, "unread");
}

// Prints what a call gave under its name, or the number of its refusal. A type for the two,
// with a Display, would be longer than these arms.
pub fn print_answer<W: Write>(out: &mut W, name: &str, answer: Result<u64, Refusal>) {
    match answer {
        Ok(n) => {
            let _ = writeln!(out, "{name}={n}");
        }
        Err(refusal) => {
            let number = refusal.number();
            let _ = writeln!(out, "refused={number}");
        }
    }
}

// Prints the number of opening or entering, 0 where it is not refused: the stored output has it so.
pub fn print_number<W: Write>(out: &mut W, outcome: Result<(), Refusal>) {
    let number = outcome.err().map_or(0, |refusal| refusal.number());
    let _ = writeln!(out, "number={number}");
}

// Prints what asking at a floor gave.
pub fn print_asked<W: Write>(out: &mut W, asked: Result<Working, Refusal>) {
    let at_floor = AtFloor(asked);
    let _ = writeln!(out, "{at_floor}");
}

// Prints what asking after a list gave and which of its entries were refused.
pub fn print_after<W: Write>(out: &mut W, answer: AfterList) {
    let at_floor = AtFloor(answer.asked);
    let count = answer.refusals.count;
    let (first, place) = match answer.refusals.first {
        Some(refused) => (refused.refusal.number(), refused.back),
        None => (0, 0),
    };
    let _ = writeln!(
        out,
        "{at_floor} refusals={count} first={first} place={place}"
    );
}
