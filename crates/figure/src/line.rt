// A line as the number that holds it.
ghost use Rattle.column.specs.Line.{unpacked};
ghost use Rattle.column.specs.inner.Sound.{InLimits};

// A line of a column as one number, within its limits.
#[derive(Clone, Copy)]
pub struct HeldLine {
    pub number: u64,
    pub ghost within: { InLimits (unpacked number) },
}
