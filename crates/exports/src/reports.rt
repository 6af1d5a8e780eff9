// The report of a text for programs in C and Rust.
ghost use Rattle.std.specs.Prelude.{◌≡◌};
ghost use Rattle.io.specs.Counts.{IsPrefixLen};
ghost use Rattle.text.specs.Put.{fronted};
ghost use Rattle.report.specs.Report.{put_of, reported_of, reported_told};
ghost use Rattle.exports.specs.Exported.{shown_report};

use refusal::Refused;
use report::TakenDown;

// What reporting gives: the number of the refusal, 0 where the sheet is read; the line K; and how many
// bytes were put, 0 where the sheet is refused. TakenDown has the last two; C's has a number first.
#[repr(C)]
#[derive(Clone, Copy)]
pub struct BungeroReported {
    pub number: u64,
    pub line: u64,
    pub length: usize,
}

impl From<Result<TakenDown, Refused<u64>>> for BungeroReported {
    ghost from_gives = { λ answer reported. reported ≡ shown_report (reported_told answer) };

    #[tactic(auto, unfolding(crate::specs::Exported::shown_report, report::specs::Report::reported_told))]
    fn from(answer: Result<TakenDown, Refused<u64>>) -> BungeroReported {
        match answer {
            Ok(taken) => BungeroReported {
                number: 0,
                line: taken.line,
                length: taken.length,
            },
            Err(refused) => BungeroReported {
                number: refused.refusal.number(),
                line: refused.back,
                length: 0,
            },
        }
    }
}

// Puts the take-down of a text at the start of a buffer; nothing where the sheet is refused.
#[unsafe(no_mangle)]
pub extern "C" fn bungero_report(text: &[u8], out: &mut [u8; report::ROOM]) -> BungeroReported
    ensures reported { result ≡ shown_report (reported_of text.now) }
    ensures put { out.new ≡ fronted (put_of text.now) out.old }
    ensures prefix_len { IsPrefixLen result.length out.new }
{
    report::report(text, out).into()
}
