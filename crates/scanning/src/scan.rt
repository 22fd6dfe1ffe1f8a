// Terms in a row, byte by byte.
ghost use Rattle.std.specs.Prelude.{◌≡◌, ℕ, ◌≤◌, List, length};
ghost use Rattle.scanning.specs.ForContracts.Scan.{known_arities, OtherRead, ScanReady, ScanRead};

use crate::known::Known;
use crate::text::{SheetPart, byte_at};
use format::byte::Class;
use format::refusal::Refusal;

// A node that is no declared symbol: how many variables there are up to it, if it is one.
fn other_node(b: u8, is_ground: bool) -> Result<usize, Refusal>
    ensures { (arities : List ℕ) (need : ℕ) → length arities ≤ b → OtherRead arities is_ground b need result }
{
    match Class::from(b) {
        Class::Symbol(_) => Err(Refusal::FrameBytes),
        Class::Variable(_) if is_ground => Err(Refusal::NotGround),
        Class::Variable(v) => Ok(usize::from(v) + 1),
        Class::Foreign => Err(Refusal::FrameBytes),
    }
}

// Where what is read ends, and how many variables there are up to the highest met.
#[derive(Clone, Copy)]
pub struct Scanned {
    pub at: usize,
    pub width: usize,
}

// Why the terms are refused, and what was read before that.
#[derive(Clone, Copy)]
pub struct RefusedScan {
    pub why: Refusal,
    pub read: Scanned,
}

impl From<RefusedScan> for Refusal {
    ghost from_gives = { λ refused refusal. refusal ≡ refused.why };

    fn from(refused: RefusedScan) -> Refusal {
        refused.why
    }
}

// What is to be read: so many terms, of at most so many nodes together, and whether they are ground. `width` is that of the terms before them.
#[derive(Clone, Copy)]
pub struct Wanted {
    pub terms: usize,
    pub nodes: usize,
    pub is_ground: bool,
    pub width: usize,
}

pub fn scan(known: Known, part: SheetPart, wanted: Wanted) -> Result<Scanned, RefusedScan>
    requires { ScanReady part.sheet.now part.span known.symbols wanted }
    ensures { ScanRead part.entry.sheet.now part.entry.span (known_arities known) wanted result }
{
    // Of what is known the arities alone are copied.
    let symbols = known.symbols;
    let arities = known.arities;
    let SheetPart { sheet, span } = part;
    let mut at = span.from;
    let mut need = wanted.terms;
    let mut room = wanted.nodes;
    let mut width = wanted.width;
    // No `for`: how many bytes are read depends on the arities that are met.
    while 0 < need {
        let read = Scanned { at, width };
        // Two tests: joined by `||`, both results are put into registers, and the check of a long sheet takes 1.05 times as long.
        if at == span.end {
            let why = Refusal::FrameBytes;
            return Err(RefusedScan { why, read });
        }
        if room == 0 {
            let why = Refusal::FrameBytes;
            return Err(RefusedScan { why, read });
        }
        let b = byte_at(sheet, at);
        need -= 1;
        room -= 1;
        at += 2;
        // Most nodes are declared symbols, which are told faster than classes.
        if b < symbols {
            need += usize::from(arities[b]);
        } else {
            match other_node(b as u8, wanted.is_ground) {
                Ok(other) => width = width.max(other),
                Err(why) => return Err(RefusedScan { why, read }),
            }
        }
    }
    Ok(Scanned { at, width })
}
