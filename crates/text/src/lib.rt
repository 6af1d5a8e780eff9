// Text: words, numbers and newlines put into a lent buffer, and the lines of a text.
#![tactic(auto)]

ghost use Rattle.std.specs.Prelude.{◌≡◌, List, [], ◌∷◌, ℕ, map};
ghost use Rattle.text.specs.Text.{decimal, signed_parts};
ghost use Rattle.text.specs.Lines.{newline};
ghost use Rattle.text.specs.Put.{field_parts, put_all, put_text};

pub mod scan;

// A lent buffer, and the index in it from which on texts are put. No rest of the buffer in place of the index: how much was
// put is what its users give their callers.
#[derive(Drop)]
pub struct Output<'a> {
    pub buffer: &'a mut [u8],
    pub at: usize,
}

// What texts are put into, one after another.
pub trait Sink {
    // what it is after a text is put into it
    ghost with_text: { Self → List ℕ → Self };

    // Puts a text.
    fn text(&mut self, text: &[u8])
        ensures { self.new ≡ put_all with_text self.old (text.now ∷ []) };

    // Puts the decimal digits of a number.
    #[tactic(auto, using(crate::proofs::Digits::written_decimal))]
    final fn decimal(&mut self, n: u64)
        ensures { self.new ≡ put_all with_text self.old (decimal n ∷ []) }
    {
        let mut digits = itoa::Buffer::new();
        self.text(digits.format(n).as_bytes());
    }

    // Puts a key and the number after it.
    #[tactic(auto, using(crate::proofs::Puts::put_then))]
    final fn field(&mut self, key: &[u8], n: u64)
        ensures { self.new ≡ put_all with_text self.old (key.now ∷ decimal n ∷ []) }
    {
        self.text(key);
        self.decimal(n);
    }

    // Puts the newline that ends a line.
    final fn newline(&mut self)
        ensures { self.new ≡ put_all with_text self.old ((newline ∷ []) ∷ []) }
    {
        self.text(b"\n");
    }

    // Puts a line: each key and the number after it, and then the newline.
    final fn line(&mut self, fields: &[(&[u8], u64)])
        ensures { self.new ≡ put_all with_text self.old (field_parts (map (λ field. field.0.now) fields.now) (map (λ field. field.1) fields.now)) }
    {
        for (key, n) in fields {
            self.field(key, *n);
        }
        self.newline();
    }

    // Puts a number, with a minus sign where it is below 0. The sign is a text of its own, which finds room
    // or not; the library's text of a number would have both in one.
    final fn signed(&mut self, n: i64)
        ensures { self.new ≡ put_all with_text self.old (signed_parts n) }
    {
        let below = n < 0;
        if below {
            self.text(b"-");
        }
        self.decimal(n.unsigned_abs());
    }
}

impl<'a> Sink for Output<'a> {
    ghost with_text = { put_text };

    // Puts a text and goes on behind it; without room for all of it the buffer and the index stay as
    // they were.
    fn text(&mut self, text: &[u8]) {
        if self.at > self.buffer.len() {
            return;
        }
        if text.len() > self.buffer.len() - self.at {
            return;
        }
        let end = self.at + text.len();
        self.buffer[self.at..end].copy_from_slice(text);
        self.at = end;
    }
}
