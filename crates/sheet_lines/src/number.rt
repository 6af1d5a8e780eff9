// Numbers and keys at the start of a text, which is what is left of a line of a sheet.
ghost use Rattle.std.specs.Prelude.{◌≡◌, length};
ghost use Rattle.sheet_lines.specs.Number.{may_grow, number_ended, number_at, field_at};
ghost use Rattle.sheet_lines.specs.inner.InLine.{Small};

// The number that was read, and the place after it.
#[derive(Clone, Copy)]
pub struct Read {
    pub value: u64,
    pub next: usize,
}

// Whether a digit may follow so many digits of this value.
#[tactic(auto, unfolding(crate::specs::Number::may_grow))]
fn may_grow(count: usize, value: u64) -> bool
    ensures { result ≡ may_grow count value }
{
    count == 0 || (value != 0 && count < 13)
}

// The number of so many digits at the start of a text.
#[tactic(auto, unfolding(crate::specs::Number::number_ended))]
fn number_ended(count: usize, value: u64) -> Option<Read>
    ensures { result ≡ number_ended count value count }
{
    if count == 0 {
        return None;
    }
    Some(Read { value, next: count })
}

// The number at the start of a text. `parse` of the library takes needless zeros and more digits, so all
// but the value would have to be looked at beside it.
pub fn number_at(text: &[u8]) -> Option<Read>
    ensures value { result ≡ number_at text.now 0 }
    ensures small { Small (length text.now) result }
{
    let mut count = 0;
    let mut value = 0;
    for byte in text {
        if !byte.is_ascii_digit() {
            return number_ended(count, value);
        }
        if !may_grow(count, value) {
            return None;
        }
        value = value * 10 + (*byte - b'0') as u64;
        count += 1;
    }
    number_ended(count, value)
}

// The number behind a key that stands at the start of a text.
#[tactic(auto, using(crate::proofs::Moved::field_behind, crate::proofs::AtPlace::strip_is), unfolding(crate::specs::Number::field_at, crate::specs::inner::InLine::Small))]
pub fn field_at(text: &[u8], key: &[u8]) -> Option<Read>
    ensures value { result ≡ field_at key.now text.now 0 }
    ensures small { Small (length text.now) result }
{
    let number = number_at(text.strip_prefix(key)?)?;
    Some(Read {
        value: number.value,
        next: key.len() + number.next,
    })
}
