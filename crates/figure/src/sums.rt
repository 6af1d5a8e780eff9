// Sums over lines that stand together: the formula lines' area, and R × area.
ghost use Rattle.std.specs.Prelude.{◌≡◌, ◌≤◌};
ghost use Rattle.column.specs.Line.{unpacked};
ghost use Rattle.figure.specs.inner.Totals.{formula_area, areas, figures};

use crate::line::HeldLine;
use crate::lines::Lines;
use crate::shares::Shares;
use member::TributaryArea;

impl HeldLine {
    // The area of a formula line, and 0 of any other.
    #[tactic(auto, unfolding(crate::specs::inner::Totals::formula_area))]
    fn formula_area(self) -> u64
        ensures { (result ≡ formula_area (unpacked self.number)) × (result ≤ 200000) }
    {
        if self.is_formula() {
            return column::line_of(self.number).area.0;
        }
        0
    }
}

impl<'a> Lines<'a> {
    // The formula lines' area. By the sum of an iterator this and the next take longer, and asking 256 lines is above plain
    // Rust, which the loop is not. One loop over a function would ask, in three clauses, what it gives at each line and how
    // large that is, which is longer than the two loops.
    #[tactic(auto, using(crate::proofs::HeldLines::line_within, crate::proofs::HeldLines::lines_few, std::proofs::lemmas::List::Sums::sum_by_more))]
    pub fn area(self) -> TributaryArea
        ensures { (result.0 ≡ areas self.entry.numbers.now) × (result.0 ≤ 51200000) }
    {
        let mut area: u64 = 0;
        for line in self.numbers {
            area += HeldLine { number: *line }.formula_area();
        }
        TributaryArea(area)
    }

    // The sum of R × area.
    #[tactic(auto, using(crate::proofs::HeldLines::line_within, crate::proofs::HeldLines::lines_few, std::proofs::lemmas::List::Sums::sum_by_more))]
    pub fn figure(self, shares: Shares) -> u64
        ensures { result ≡ figures shares self.entry.numbers.now }
    {
        let mut figure: u64 = 0;
        for line in self.numbers {
            figure += HeldLine { number: *line }.figure(shares);
        }
        figure
    }
}
