// How many bytes the text of a sheet has, for a buffer that may be too short.
ghost use Rattle.std.specs.Prelude.{◌≡◌, length};
ghost use Rattle.sheet.specs.Keeps.{EffectsWithin};
ghost use Rattle.sheet.specs.Seen.{sheet_seen};
ghost use Rattle.sheet_text.specs.Written.{written};
ghost use Rattle.sheet_writer.specs.inner.Counted.{counted};

use crate::lines;
use sheet::SheetRef;
use text::Sink;

// How many bytes the texts have that were put.
#[derive(Drop)]
pub struct Counter {
    pub bytes: usize,
}

impl Sink for Counter {
    ghost with_text = { counted };

    #[tactic(auto, unfolding(text::specs::Put::put_all, crate::specs::inner::Counted::counted))]
    fn text(&mut self, text: &[u8]) {
        self.bytes = self.bytes.saturating_add(text.len());
    }
}

// The bytes of a sheet.
pub fn sheet_length(sheet: SheetRef<'_>) -> usize
    requires { EffectsWithin sheet.effects }
    ensures { result ≡ length (written (sheet_seen sheet.entry)) }
{
    let mut counter = Counter { bytes: 0 };
    lines::put_sheet(&mut counter, sheet);
    counter.bytes
}
