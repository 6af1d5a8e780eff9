// The lines of a sheet, put into a buffer or counted.
ghost use Rattle.std.specs.Prelude.{◌≡◌, map};
ghost use Rattle.text.specs.Put.{put_all};
ghost use Rattle.column.specs.Line.{unpacked};
ghost use Rattle.sheet_lines.specs.Form.{effect_keys};
ghost use Rattle.sheet.specs.Keeps.{EffectsWithin};
ghost use Rattle.sheet.specs.Seen.{sheet_seen};
ghost use Rattle.sheet_writer.specs.inner.Parts.{member_parts, line_parts, floors_parts, effect_parts, effects_parts, sheet_parts};

use column::{Line, Member};
use sheet::SheetRef;
use text::Sink;

// Puts the member's line.
#[tactic(auto, unfolding(text::specs::Put::field_parts, crate::specs::inner::Parts::member_parts, sheet_lines::specs::Form::member_keys))]
fn put_member<S: Sink>(sink: &mut S, member: Member)
    ensures { sink.new ≡ put_all S.with_text sink.old (member_parts member.code) }
{
    sink.line(&[(b"member=", member.code as u64)]);
}

// Puts a floor line.
#[tactic(auto, unfolding(text::specs::Put::field_parts, crate::specs::inner::Parts::line_parts, sheet_lines::specs::Form::floor_keys, sheet_lines::specs::LineText::line_numbers))]
fn put_line<S: Sink>(sink: &mut S, line: Line)
    ensures { sink.new ≡ put_all S.with_text sink.old (line_parts line) }
{
    sink.line(&[
        (b"floor=", line.floor),
        (b" class=", line.class),
        (b" load=", line.load),
        (b" area=", line.area.0),
    ]);
}

// Puts the floor lines that these numbers hold, in order.
fn put_lines<S: Sink>(sink: &mut S, numbers: &[u64])
    ensures { sink.new ≡ put_all S.with_text sink.old (floors_parts (map unpacked numbers.now)) }
{
    for number in numbers {
        put_line(sink, column::line_of(*number));
    }
}

// Puts an effect behind its key, and ends the line. Compiled into its callers, where the keys are known, so that the
// library copies by memcpy alone.
#[inline(always)]
#[tactic(auto, using(text::proofs::Puts::put_then), unfolding(crate::specs::inner::Parts::effect_parts))]
fn put_effect<S: Sink>(sink: &mut S, key: &[u8], newtons: i64)
    ensures { sink.new ≡ put_all S.with_text sink.old (effect_parts key.now newtons) }
{
    sink.text(key);
    sink.signed(newtons);
    sink.text(b"\n");
}

// Puts the six effects of a sheet.
fn put_effects<S: Sink>(sink: &mut S, sheet: SheetRef<'_>)
    requires { EffectsWithin sheet.effects }
    ensures { sink.new ≡ put_all S.with_text sink.old (effects_parts effect_keys sheet.entry.effects) }
{
    let [dead, roof, snow, rain, wind, quake] = sheet.effects;
    put_effect(sink, b"dead=", dead);
    put_effect(sink, b"roof=", roof);
    put_effect(sink, b"snow=", snow);
    put_effect(sink, b"rain=", rain);
    put_effect(sink, b"wind=", wind);
    put_effect(sink, b"quake=", quake);
}

// Puts a sheet.
pub fn put_sheet<S: Sink>(sink: &mut S, sheet: SheetRef<'_>)
    requires { EffectsWithin sheet.effects }
    ensures { sink.new ≡ put_all S.with_text sink.old (sheet_parts (sheet_seen sheet.entry)) }
{
    put_member(sink, sheet.column.member);
    put_lines(sink, sheet.column.numbers());
    put_effects(sink, sheet);
}
