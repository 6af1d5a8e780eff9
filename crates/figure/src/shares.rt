// The shares of all lines at a floor.
ghost use Rattle.std.specs.Prelude.{◌≡◌};
ghost use Rattle.reduction.specs.Share.{clamped_of, heavy_twentieths};
ghost use Rattle.figure.specs.inner.Rates.{twentieths_rate, rate_of};

use crate::rates::Rate;
use reduction::Carried;

// What the reduced loads of all lines at a floor follow from: n, X, the twentieths of the formula lines'
// share where it is clamped, their rate, and `times` of class 2.
#[derive(Clone, Copy)]
pub struct Shares {
    pub carried: Carried,
    pub clamped: Option<u64>,
    pub formula: Rate,
    pub other: u64,
    pub ghost clamped_is: { clamped ≡ clamped_of carried.floors carried.influence },
    pub ghost formula_is: { formula ≡ rate_of carried.floors carried.influence },
    pub ghost other_is: { other ≡ (twentieths_rate (heavy_twentieths carried.floors)).times },
}
