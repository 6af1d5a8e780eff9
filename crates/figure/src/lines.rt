// Lines of a column that stand together, each as one number.
ghost use Rattle.std.specs.Prelude.{◌≡◌, map, ◌≤◌, length, take};
ghost use Rattle.column.specs.Line.{unpacked};
ghost use Rattle.column.specs.Column.{lines_of};
ghost use Rattle.column.specs.Seen.{column_seen};
ghost use Rattle.figure.specs.inner.Totals.{Ordered, Lined};

use column::ColumnRef;

// Lines as numbers, within their limits and in floor order.
#[derive(Clone, Copy)]
pub struct Lines<'a> {
    pub numbers: &'a [u64],
    pub ghost lined: { ∥ Lined numbers.now ∥₁ },
    pub ghost ordered: { ∥ Ordered (map unpacked numbers.now) ∥₁ },
}

impl<'a> Lines<'a> {
    // The lines of a column that is lent.
    pub fn of(column: ColumnRef<'a>) -> Lines<'a>
        ensures { map unpacked result.numbers.now ≡ lines_of (column_seen column.entry) }
    {
        Lines {
            numbers: column.numbers(),
        }
    }

    // So many of them, from the first on.
    pub fn first(self, count: usize) -> Lines<'a>
        requires { count ≤ length self.numbers.now }
        ensures { result.numbers.now ≡ take count self.entry.numbers.now }
    {
        Lines {
            numbers: &self.numbers[..count],
        }
    }
}

// The floor of the line that a number holds.
pub fn floor_of(line: u64) -> u64
    ensures { result ≡ (unpacked line).floor }
{
    column::line_of(line).floor
}
