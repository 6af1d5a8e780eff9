// The lines that a list of numbers tells.
ghost use Rattle.std.specs.Iterator.{YieldsFirst, item_count};
ghost use Rattle.column.specs.Line.{entries_of};

use crate::Line;
use member::TributaryArea;

// The entries of a list of numbers, four an entry. One to three numbers left over at the end are no entry.
#[derive(Drop)]
pub struct Entries<'a>(pub &'a [u64]);

impl<'a> Iterator for Entries<'a> {
    type Item = Line;

    ghost next_gives = { YieldsFirst (λ s. entries_of s.0.now) };

    ghost remaining = { item_count (λ s. entries_of s.0.now) };

    #[inline(always)]
    #[tactic(auto, using(crate::proofs::EntriesFrom::entries_first, crate::proofs::EntriesFrom::entries_few))]
    fn next(&mut self) -> Option<Line> {
        let [floor, class, load, area, after @ ..] = self.0 else {
            return None;
        };
        self.0 = after;
        Some(Line {
            floor: *floor,
            class: *class,
            load: *load,
            area: TributaryArea(*area),
        })
    }
}
