// The refusals and their numbers.
ghost use Rattle.std.specs.Prelude.{◌≡◌};
ghost use Rattle.format.specs.Refusal.{number};

#[derive(Clone, Copy, Debug, PartialEq, Eq)]
pub enum Refusal {
    TextLength = 1,
    Digits = 2,
    FrameOrder = 3,
    SymbolFrame = 4,
    FrameBytes = 5,
    NotGround = 6,
    AbsentDirection = 7,
    TooManyTurns = 8,
    TooManyElements = 9,
    TooManyLines = 10,
    ShortBuffer = 11,
    AbsentArgument = 12,
}

// The number by which a call and a frame tell the refusal.
impl From<Refusal> for u8 {
    ghost from_gives = { λ refusal byte. byte ≡ number refusal };

    fn from(refusal: Refusal) -> u8 {
        refusal as u8
    }
}
