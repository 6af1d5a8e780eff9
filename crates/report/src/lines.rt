// The lines that takedown prints, put into a buffer.
ghost use Rattle.std.specs.Prelude.{◌≡◌};
ghost use Rattle.text.specs.inner.Texts.{put};
ghost use Rattle.report.specs.Report.{floor_line, governing_line, refusal_line};

use combination::GoverningRow;
use figure::Working;
use text::{Output, Sink};

// Puts the line of a floor with this working.
#[tactic(auto, unfolding(text::specs::Put::field_parts, crate::specs::Report::floor_line))]
pub fn put_floor_line(output: &mut Output, floor: u64, working: Working)
    ensures { output.new ≡ put output.old (floor_line floor working) }
{
    output.line(&[
        (b"floor=", floor),
        (b" floors=", working.floors),
        (b" influence=", working.influence.0),
        (b" figure=", working.figure),
    ]);
}

// Puts the line of a governing sum and its row.
#[tactic(auto, using(text::proofs::Puts::put_then), unfolding(text::specs::Put::field_parts, crate::specs::Report::governing_line))]
pub fn put_governing_line(output: &mut Output, key: &[u8], governing: GoverningRow)
    ensures { output.new ≡ put output.old (governing_line key.now governing) }
{
    output.text(key);
    output.signed(governing.tenths);
    output.line(&[(b" row=", governing.row)]);
}

// Puts the line of a refusal.
#[tactic(auto, unfolding(text::specs::Put::field_parts, crate::specs::Report::refusal_line))]
pub fn put_refusal_line(output: &mut Output, number: u64, line: u64)
    ensures { output.new ≡ put output.old (refusal_line number line) }
{
    output.line(&[(b"refused=", number), (b" line=", line)]);
}
