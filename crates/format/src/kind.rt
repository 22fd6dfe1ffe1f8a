// The kinds of frames.
ghost use Rattle.std.specs.Prelude.{◌≡◌};
ghost use Rattle.format.specs.Kind.{kind_of};

#[derive(Clone, Copy, Debug, PartialEq, Eq)]
pub enum FrameKind {
    Symbols,
    Equation,
    Run,
    Judgement,
    Comparison,
    Unknown,
}

// The kind that a frame's first byte says.
impl From<u8> for FrameKind {
    ghost from_gives = { λ byte kind. kind ≡ kind_of byte };

    fn from(byte: u8) -> FrameKind {
        match byte {
            1 => FrameKind::Symbols,
            2 => FrameKind::Equation,
            3 => FrameKind::Run,
            4 => FrameKind::Judgement,
            5 => FrameKind::Comparison,
            _ => FrameKind::Unknown,
        }
    }
}
