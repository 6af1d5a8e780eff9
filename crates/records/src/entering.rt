// Entering a list of lines, one after another, up to and with the first refused one.
ghost use Rattle.std.specs.Prelude.{◌≡◌};
ghost use Rattle.column.specs.Column.{Reached};
ghost use Rattle.records.specs.inner.Entering.{entering_told, entered_from};

use column::{Column, Line};
use refusal::Refused;

// Enters the lines in order; refused, with the place of the line, where a condition for entering it holds.
#[tactic(auto, unfolding(crate::specs::inner::Entering::entering_told), using(crate::proofs::InTurn::entered_end))]
pub fn enter_all(column: &mut Column, lines: &[Line]) -> Result<(), Refused<u64>>
    requires { Reached column.old }
    ensures { (entering_told result column.new ≡ entered_from 1 column.old lines.now) × Reached column.new }
{
    for (before, line) in lines.iter().enumerate() {
        if let Err(refusal) = column.enter(*line) {
            let refused = Refused {
                refusal,
                back: before as u64 + 1,
            };
            return Err(refused);
        }
    }
    Ok(())
}
