// Where a line of a text ends.
ghost use Rattle.std.specs.Prelude.{◌≡◌};
ghost use Rattle.text.specs.Lines.{end_from};

use memchr::memchr;

// The place of the first newline from a place on; the end of the text where there is none, and the
// place itself where it is past the end. A place and no part of the text: who reads on names the parts of
// a text by their places. Reading a sheet goes over all newlines by the kit's iterator.
pub fn line_end(text: &[u8], from: usize) -> usize
    ensures { result ≡ end_from text.now from }
{
    if from > text.len() {
        return from;
    }
    let rest = &text[from..];
    from + memchr(b'\n', rest).unwrap_or(rest.len())
}
