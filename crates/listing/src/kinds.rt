// The first byte of each frame that is printed.
ghost use Rattle.std.specs.Prelude.{◌≡◌};
ghost use Rattle.listing.specs.ForContracts.Kinds.{printed_kind};

#[derive(Clone, Copy, Debug, PartialEq, Eq)]
pub enum PrintedKind {
    Table = 0x11,
    Line = 0x12,
    Run = 0x13,
    Step = 0x14,
    Judgement = 0x15,
    Comparison = 0x16,
    Total = 0x1f,
    Refusal = 0xff,
}

impl From<PrintedKind> for u8 {
    ghost from_gives = { λ kind byte. byte ≡ printed_kind kind };

    fn from(kind: PrintedKind) -> u8 {
        kind as u8
    }
}
