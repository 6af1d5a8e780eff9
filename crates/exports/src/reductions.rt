// The reduced load of one line for programs in C and Rust.
ghost use Rattle.std.specs.Prelude.{◌≡◌};
ghost use Rattle.refusal.specs.Said.{said};
ghost use Rattle.reduction.specs.Share.{dm²};
ghost use Rattle.reduction.specs.Reduced.{reduced_of};
ghost use Rattle.exports.specs.Exported.{shown_reduced};

use reduction::{Carried, InfluenceArea};
use refusal::Refusal;

// The reduced load: the paper's number, 0 where none holds, and R, which is 0 where it is refused.
#[repr(C)]
#[derive(Clone, Copy)]
pub struct BungeroReduced {
    pub number: u64,
    pub reduced: u64,
}

impl From<Result<u64, Refusal>> for BungeroReduced {
    ghost from_gives = { λ answer given. given ≡ shown_reduced (said answer) };

    #[tactic(auto, unfolding(crate::specs::Exported::shown_reduced, refusal::specs::Said::said))]
    fn from(answer: Result<u64, Refusal>) -> BungeroReduced {
        match answer {
            Ok(reduced) => BungeroReduced { number: 0, reduced },
            Err(refusal) => BungeroReduced {
                number: refusal.number(),
                reduced: 0,
            },
        }
    }
}

// The reduced load R of a line, at n floors and an influence area in dm².
#[unsafe(no_mangle)]
pub extern "C" fn bungero_reduced_load(
    load: u64,
    class: u64,
    floors: u64,
    influence: u64,
) -> BungeroReduced
    ensures { result ≡ shown_reduced (reduced_of load class floors (dm² influence)) }
{
    let carried = Carried {
        floors,
        influence: InfluenceArea(influence),
    };
    carried.reduced_load(load, class).into()
}
