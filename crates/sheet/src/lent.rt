// A sheet lent to be read: its column in the parts in which a caller may hold it, and its effects.
use crate::Sheet;
use column::ColumnRef;
use sheet_lines::EFFECTS;

// A column and six effects in newtons, dead to quake. No ghost field says that these are within the limit: whoever writes
// one would be asked it, and a promise may take nothing as given but that a column is reached.
#[derive(Clone, Copy)]
pub struct SheetRef<'a> {
    pub column: ColumnRef<'a>,
    pub effects: [i64; EFFECTS],
}

impl Sheet {
    ghost use Rattle.std.specs.Prelude.{◌≡◌};
    ghost use Rattle.column.specs.Column.{Reached};
    ghost use Rattle.sheet.specs.Seen.{sheet_seen};

    // The sheet, lent to be read.
    pub fn lend(&self) -> SheetRef<'_>
        requires { Reached self.now.column }
        ensures { sheet_seen result ≡ self.now }
    {
        SheetRef {
            column: self.column.lend(),
            effects: self.effects,
        }
    }
}
