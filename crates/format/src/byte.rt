// Bytes: the end of a line, and the classes of node bytes.
ghost use Rattle.std.specs.Prelude.{◌≡◌};
ghost use Rattle.format.specs.Byte.{class_of};

use crate::limits::Limits;

// "then LF (byte 0a)"
pub const LF: u8 = 0x0a;

// A symbol or a variable, each with its number, or a byte that stands for neither.
#[derive(Clone, Copy, Debug, PartialEq, Eq)]
pub enum Class {
    Symbol(u8),
    Variable(u8),
    Foreign,
}

impl From<u8> for Class {
    ghost from_gives = { λ byte class. class ≡ class_of byte };

    fn from(byte: u8) -> Class {
        match byte {
            0..=15 => Class::Symbol(byte),
            128..=139 => Class::Variable(byte - Limits::FIRST_VARIABLE),
            _ => Class::Foreign,
        }
    }
}
