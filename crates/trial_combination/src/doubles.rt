// Reads doubles and whole numbers from the hexadecimal digits of their bits, most significant first.
ghost use Rattle.std.specs.Prelude.{◌≡◌, length};

use effects::PerLoad;
use std::num::f64_from_bits_with_nan;
use std::str;

// The bits with these digits; a sign and capitals, which `from_str_radix` takes, are none of them.
fn bits_from(digits: &[u8]) -> Option<u64> {
    if !digits
        .iter()
        .all(|byte| matches!(*byte, b'0'..=b'9' | b'a'..=b'f'))
    {
        return None;
    }
    u64::from_str_radix(str::from_utf8(digits).ok()?, 16).ok()
}

// The double with these digits; there is one NaN here for all the patterns of NaN.
pub fn double_from(digits: &[u8]) -> Option<f64> {
    Some(f64_from_bits_with_nan(bits_from(digits)?))
}

// The whole number with these digits, in two's complement.
pub fn whole_from(digits: &[u8]) -> Option<i64> {
    Some(bits_from(digits)?.cast_signed())
}

// What is read for each of the seven loads, parted by single bytes.
pub fn seven_from<T: Copy, F: Fn(&[u8]) -> Option<T>>(text: &[u8], read: F) -> Option<PerLoad<T>>
    requires seven { length text.now ≡ 118 }
    requires reads { F.IsAlwaysCallable read }
{
    Some(PerLoad {
        dead: read(&text[0..16])?,
        live: read(&text[17..33])?,
        roof: read(&text[34..50])?,
        snow: read(&text[51..67])?,
        rain: read(&text[68..84])?,
        wind: read(&text[85..101])?,
        quake: read(&text[102..118])?,
    })
}
