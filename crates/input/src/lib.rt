// Reading from a reader into a lent buffer.
#![tactic(auto)]

ghost use Rattle.std.specs.Prelude.{◌≡◌, eqb, length};
ghost use Rattle.io.specs.Counts.{IsPrefixLen};
ghost use Rattle.input.specs.Ending.{is_full};

use std::io::{Error, Read};

// Why reading stopped where no read failed: the buffer is full, or the input has ended.
#[derive(Clone, Copy)]
pub enum Ending {
    Full,
    Ended,
}

// What was read: so many bytes at the start of the buffer, and why no more, or the error of a read. The
// buffer stays the caller's, as with `read` of std.
#[derive(Drop)]
pub struct Input {
    pub count: usize,
    pub ending: Result<Ending, Error>,
}

// Reads until the buffer is full, the input ends or a read fails. Which bytes come is the reader's; they
// stand at the start of the buffer, and fill it where it is full and nowhere else. `read_exact` of std
// would not say how much was read before the input ended or a read failed.
pub fn read_from<R: Read>(reader: &mut R, buffer: &mut [u8]) -> Input
    ensures prefix_len { IsPrefixLen result.count buffer.new }
    ensures ending { is_full result.ending ≡ eqb result.count (length buffer.new) }
{
    let mut count = 0;
    while count < buffer.len() {
        match reader.read(&mut buffer[count..]) {
            Ok(0) => {
                return Input {
                    count,
                    ending: Ok(Ending::Ended),
                };
            }
            Ok(more) => count += more,
            Err(error) => {
                return Input {
                    count,
                    ending: Err(error),
                };
            }
        }
    }
    Input {
        count,
        ending: Ok(Ending::Full),
    }
}
