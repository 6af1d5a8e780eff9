// The refusals, named for what is wrong, and the number that the papers give each.
#![tactic(auto)]

ghost use Rattle.std.specs.Prelude.{◌≡◌};
ghost use Rattle.refusal.specs.Refusal.{number_of};

// Why a call was not carried out, with the paper's number (01, Numbers by the place of checking; from 12 on 02).
#[derive(Clone, Copy, PartialEq, Eq)]
pub enum Refusal {
    // A member's code is not 1 to 12.
    UnknownCode = 1,
    // 256 lines are held already.
    TooManyLines = 2,
    // A floor is not in the range from the last accepted line's, at least 1, to 64.
    FloorOutOfRange = 3,
    // A class is not 1 to 3.
    UnknownClass = 4,
    // A load is not 1 to 50,000 N/m².
    LoadOutOfRange = 5,
    // A tributary area is not 1 to 200,000 dm².
    AreaOutOfRange = 6,
    // No accepted line has the floor asked for.
    NoLineAtFloor = 7,
    // An effect is not a whole number.
    EffectNotWhole = 8,
    // An effect is beyond ±1,000,000,000,000.
    EffectOutOfRange = 9,
    // A sheet's line has not the form, is missing, or is left over.
    SheetMalformed = 10,
    // A sheet is longer than 32,768 bytes.
    SheetTooLong = 11,
    // A buffer is shorter than the text that is to be written to it.
    BufferTooShort = 12,
}

impl Refusal {
    // The paper's number of a refusal.
    #[tactic(auto, using(crate::proofs::Said::numbered))]
    pub fn number(self) -> u64
        ensures { result ≡ number_of self }
    {
        self as u64
    }
}

// A refusal, and what comes back with it.
#[derive(Clone, Copy)]
pub struct Refused<B> {
    pub refusal: Refusal,
    pub back: B,
}
