// Reads what a line asks: a word, told by its first letter, then decimal numbers, parted by single blanks.
use column::Line;
use member::TributaryArea;
use reduction::InfluenceArea;
use std::alloc::{AllocError, Global};
use std::str;

// A question, with its numbers.
#[derive(Clone, Copy)]
pub enum Question {
    // The factor of a member's code.
    Factor(u64),
    // The reduced load of a load and a class where so many floors are carried.
    Reduced {
        load: u64,
        class: u64,
        floors: u64,
        influence: InfluenceArea,
    },
    // Opening a member of this code.
    Open(u64),
    // Entering a line.
    Enter(Line),
    // Asking at a floor.
    Ask(u64),
    // Asking at a floor after the whole list of numbers, of which the last few are left off.
    List {
        floor: u64,
        off: u64,
    },
}

// The number with these decimal digits.
fn number_of(digits: &[u8]) -> Option<u64> {
    // The library would take a sign too.
    if digits.starts_with(b"+") {
        return None;
    }
    str::from_utf8(digits).ok()?.parse().ok()
}

// The question of a word and its numbers.
fn question_of(word: &[u8], numbers: &[u64]) -> Option<Question> {
    match (word, numbers) {
        ([b'f', ..], [code]) => Some(Question::Factor(*code)),
        ([b'r', ..], [load, class, floors, influence]) => Some(Question::Reduced {
            load: *load,
            class: *class,
            floors: *floors,
            influence: InfluenceArea(*influence),
        }),
        ([b'o', ..], [code]) => Some(Question::Open(*code)),
        ([b'e', ..], [floor, class, load, area]) => Some(Question::Enter(Line {
            floor: *floor,
            class: *class,
            load: *load,
            area: TributaryArea(*area),
        })),
        ([b'a', ..], [floor]) => Some(Question::Ask(*floor)),
        ([b'l', ..], [floor, off]) => Some(Question::List {
            floor: *floor,
            off: *off,
        }),
        _ => None,
    }
}

// The most numbers of a question.
const MOST: usize = 4;

// What a line asks; none where it is no question. Numbers beyond those of a question are not kept.
pub fn read(alloc: Global, line: &[u8]) -> Result<Option<Question>, AllocError> {
    let mut parts = line.split(|byte| *byte == b' ');
    let Some(word) = parts.next() else {
        return Ok(None);
    };
    let mut numbers = Vec::new(alloc);
    for digits in parts {
        let Some(number) = number_of(digits) else {
            return Ok(None);
        };
        if numbers.len() == MOST {
            return Ok(None);
        }
        numbers.push(number)?;
    }
    Ok(question_of(word, numbers.as_slice()))
}
