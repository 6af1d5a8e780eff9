// The list call for programs in C and Rust.
ghost use Rattle.std.specs.Prelude.{◌≡◌};
ghost use Rattle.column.specs.Column.{member_of};
ghost use Rattle.refusal.specs.Said.{told};
ghost use Rattle.records.specs.Listed.{listed_of};
ghost use Rattle.exports.specs.Exported.{shown_listed};

use column::Line;
use figure::Working;
use refusal::Refused;

// What the list call gives: the paper's number, 0 where none holds, and the place of the refused line,
// 0 where it is none; and n, X and the figure, which are 0 where the list is refused.
#[repr(C)]
#[derive(Clone, Copy, Default)]
pub struct BungeroListed {
    pub number: u64,
    pub place: u64,
    pub floors: u64,
    pub influence: u64,
    pub figure: u64,
}

// The working is told as BungeroFigure tells it: C's header names its three numbers one by one, in each.
impl From<Result<Working, Refused<u64>>> for BungeroListed {
    ghost from_gives = { λ answer listed. listed ≡ shown_listed (told answer) };

    #[tactic(auto, unfolding(crate::specs::Exported::shown_listed, refusal::specs::Said::told))]
    fn from(answer: Result<Working, Refused<u64>>) -> BungeroListed {
        match answer {
            Ok(working) => BungeroListed {
                floors: working.floors,
                influence: working.influence.0,
                figure: working.figure,
                ..BungeroListed::default()
            },
            Err(refused) => BungeroListed {
                number: refused.refusal.number(),
                place: refused.back,
                ..BungeroListed::default()
            },
        }
    }
}

// The figure of a lent list of records.
#[unsafe(no_mangle)]
pub extern "C" fn bungero_figure_of(code: u64, lines: &[Line], floor: u64) -> BungeroListed
    ensures { result ≡ shown_listed (listed_of (member_of code) lines.now floor) }
{
    records::figure_of(code, lines, floor).into()
}
