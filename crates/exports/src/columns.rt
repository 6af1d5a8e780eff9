// Asking for programs in C and Rust; a column is lent in its parts.
ghost use Rattle.std.specs.Prelude.{◌≡◌};
ghost use Rattle.column.specs.Column.{column_from, Reached};
ghost use Rattle.refusal.specs.Said.{said};
ghost use Rattle.figure.specs.Asked.{asked};
ghost use Rattle.exports.specs.Exported.{shown_of};

use column::{ColumnRef, Member, Places};
use figure::Working;
use refusal::Refusal;

// What asking gives: the paper's number, 0 where none holds, and n, X and the figure, which are 0
// where asking is refused.
#[repr(C)]
#[derive(Clone, Copy, Default)]
pub struct BungeroFigure {
    pub number: u64,
    pub floors: u64,
    pub influence: u64,
    pub figure: u64,
}

impl From<Result<Working, Refusal>> for BungeroFigure {
    ghost from_gives = { λ answer figure. figure ≡ shown_of (said answer) };

    #[tactic(auto, unfolding(crate::specs::Exported::shown_of, refusal::specs::Said::said))]
    fn from(answer: Result<Working, Refusal>) -> BungeroFigure {
        match answer {
            Ok(working) => BungeroFigure {
                number: 0,
                floors: working.floors,
                influence: working.influence.0,
                figure: working.figure,
            },
            Err(refusal) => BungeroFigure {
                number: refusal.number(),
                ..BungeroFigure::default()
            },
        }
    }
}

// Asks at a floor of such a column.
#[unsafe(no_mangle)]
pub extern "C" fn bungero_ask(
    held: &Places,
    member: Member,
    count: u16,
    floor: u64,
) -> BungeroFigure
    requires { Reached (column_from member count held.now) }
    ensures { result ≡ shown_of (asked (column_from member count held.now) floor) }
{
    let column = ColumnRef {
        member,
        count,
        held,
    };
    figure::ask_in(column, floor).into()
}
