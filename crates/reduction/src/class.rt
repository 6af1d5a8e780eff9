// The classes of use, by which a line's share goes.
ghost use Rattle.reduction.specs.inner.Class.{IsClass};

use refusal::Refusal;

// A class of use, with the number by which a line has it.
#[derive(Clone, Copy)]
pub enum Class {
    Ordinary = 1,
    // A garage for passenger cars.
    Garage = 2,
    // Public assembly.
    Assembly = 3,
}

impl TryFrom<u64> for Class {
    type Error = Refusal;

    ghost try_from_gives = { IsClass };

    fn try_from(number: u64) -> Result<Self, Refusal> {
        match number {
            1 => Ok(Class::Ordinary),
            2 => Ok(Class::Garage),
            3 => Ok(Class::Assembly),
            _ => Err(Refusal::UnknownClass),
        }
    }
}
