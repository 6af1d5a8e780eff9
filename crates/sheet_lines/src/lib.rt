// The form of a line of a sheet: what its words say, whatever its numbers come to.
#![tactic(auto)]

ghost use Rattle.std.specs.Prelude.{◌≡◌, ◌<◌, [], map, length, option_copied, slice_get, IfSome};
ghost use Rattle.refusal.specs.Said.{said};
ghost use Rattle.sheet_lines.specs.Form.{effect_keys, fields_from, member_form, floor_form, effect_form, is_floor, later_form, line_said};
ghost use Rattle.sheet_lines.specs.inner.InLine.{whole_number};

use column::Line;
use member::TributaryArea;
use number::{Read, field_at, number_at};
use refusal::Refusal;

mod number;

// The line that is due on a sheet: the member's, or the effect at a place, dead at 0; before dead a floor
// line may come, and after the last place nothing is due. A place is an index into the six effects of a sheet.
#[derive(Clone, Copy)]
pub enum Due {
    Member,
    Effect(usize),
}

// How many effects a sheet has.
pub const EFFECTS: usize = 6;

// What a line says that has the form.
#[derive(Clone, Copy)]
pub enum Form {
    Member(u64),
    Floor(Line),
    Effect { place: usize, newtons: i64 },
}

// The numbers of a line, each behind its key, up to the end of the line; none where the line has not
// these keys and numbers. How many keys there are is asked: of an array of texts whose length is a parameter the kit
// makes no proof (tried again with rattle-kit-13f: "the borrow checker does not cover this function yet").
fn read_fields<const N: usize>(line: &[u8], keys: &[&[u8]]) -> Option<[u64; N]>
    requires { length keys.now ≡ N }
    ensures { result ≡ fields_from [] (map (λ key. key.now) keys.now) line.now 0 }
{
    let mut numbers = [0; N];
    let mut rest = line;
    for (i, key) in keys.iter().enumerate() {
        let field = field_at(rest, key)?;
        numbers[i] = field.value;
        rest = &rest[field.next..];
    }
    if !rest.is_empty() {
        return None;
    }
    Some(numbers)
}

// A line `member=` and a code.
#[tactic(auto, unfolding(crate::specs::Form::member_form, crate::specs::Form::member_keys))]
fn member_form(line: &[u8]) -> Option<Form>
    ensures { result ≡ member_form line.now }
{
    let [code] = read_fields::<1>(line, &[b"member="])?;
    Some(Form::Member(code))
}

// A line with the numbers of a floor line, each after its key.
#[tactic(auto, unfolding(crate::specs::Form::floor_form, crate::specs::Form::floor_keys, crate::specs::Form::line_from))]
fn floor_form(line: &[u8]) -> Option<Form>
    ensures { result ≡ floor_form line.now }
{
    let keys: [&[u8]; 4] = [b"floor=", b" class=", b" load=", b" area="];
    let [floor, class, load, area] = read_fields::<4>(line, &keys)?;
    Some(Form::Floor(Line {
        floor,
        class,
        load,
        area: TributaryArea(area),
    }))
}

// The number that the whole of a text is.
#[tactic(auto, unfolding(crate::specs::inner::InLine::whole_number, crate::specs::Form::with_number, crate::specs::inner::InLine::Small))]
fn whole_number(text: &[u8]) -> Option<u64>
    ensures value { result ≡ whole_number text.now }
    ensures small { IfSome result (λ n. n < 10000000000000) }
{
    let Read { value, next } = number_at(text)?;
    if next != text.len() {
        return None;
    }
    Some(value)
}

// A line with an effect's key and its number, for the effect at a place; no minus sign stands before 0.
fn effect_form(place: usize, line: &[u8], key: &[u8]) -> Option<Form>
    ensures { result ≡ effect_form place key.now line.now }
{
    let number = line.strip_prefix(key)?;
    let Some(size) = number.strip_prefix(b"-") else {
        let load = whole_number(number)?;
        return Some(Form::Effect {
            place,
            newtons: load as i64,
        });
    };
    let uplift = whole_number(size)?;
    if uplift == 0 {
        return None;
    }
    Some(Form::Effect {
        place,
        newtons: -(uplift as i64),
    })
}

// Whether a line is a floor line, where the effect at a place is due.
fn is_floor(place: usize, line: &[u8]) -> bool
    ensures { result ≡ is_floor place line.now }
{
    place == 0 && line.starts_with(b"floor=")
}

// The key of the effect at a place.
#[tactic(auto, unfolding(crate::specs::Form::effect_keys))]
fn effect_key(place: usize) -> Option<&'static [u8]>
    ensures { option_copied result ≡ slice_get effect_keys place }
{
    let key: &[u8] = match place {
        0 => b"dead=",
        1 => b"roof=",
        2 => b"snow=",
        3 => b"rain=",
        4 => b"wind=",
        5 => b"quake=",
        _ => return None,
    };
    Some(key)
}

// What a line says where the effect at a place is due.
#[tactic(auto, using(crate::proofs::AtPlace::get_none, crate::proofs::AtPlace::get_some), unfolding(crate::specs::Form::later_form, crate::specs::Form::effect_keys))]
fn later_form(place: usize, line: &[u8]) -> Option<Form>
    ensures { result ≡ later_form place line.now }
{
    let key = effect_key(place)?;
    if is_floor(place, line) {
        return floor_form(line);
    }
    effect_form(place, line, key)
}

// What a line says, without its newline, where a line of some kind is due.
#[tactic(auto, unfolding(refusal::specs::Said::said, crate::specs::Form::form_of, crate::specs::Form::said_form, crate::specs::Form::line_said))]
pub fn form_of(due: Due, line: &[u8]) -> Result<Form, Refusal>
    ensures { said result ≡ line_said due line.now }
{
    let form = match due {
        Due::Member => member_form(line),
        Due::Effect(place) => later_form(place, line),
    };
    form.ok_or(Refusal::SheetMalformed)
}
