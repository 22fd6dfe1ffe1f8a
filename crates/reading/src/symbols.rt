// The symbol frame's body.
ghost use Rattle.std.specs.Prelude.{◌+◌, ◌*◌};
ghost use Rattle.scanning.specs.ForContracts.Digits.{bytes_between, span_bytes, SpanReady};
ghost use Rattle.reading.specs.ForContracts.Symbols.{AritiesReady, SymbolsRead, ArityBytes};

use format::limits::Limits;
use format::refusal::Refusal;
use scanning::known::Known;
use scanning::text::{SheetPart, byte_at};

// What is known behind it.
pub fn symbols_body(part: SheetPart) -> Result<Known, Refusal>
    requires { SpanReady part.sheet.now part.span }
    ensures { SymbolsRead (span_bytes part.entry.sheet.now part.entry.span) result }
{
    let SheetPart { sheet, span } = part;
    let from = span.from;
    if from == span.end {
        return Err(Refusal::SymbolFrame);
    }
    let n = byte_at(sheet, from);
    let at = from + 2;
    if n == 0 || Limits::SYMBOLS < n || span.end - at != 2 * n {
        return Err(Refusal::SymbolFrame);
    }
    arities(sheet, at, n)
}

// `n` arities from `from` on, 0 among them.
fn arities(s: &[u8], from: usize, n: usize) -> Result<Known, Refusal>
    requires { AritiesReady s.now from n }
    ensures { ArityBytes (bytes_between s.now from (from + 2 * n)) n result }
{
    let mut known = Known::nothing();
    known.symbols = n;
    for i in 0..n {
        let a = byte_at(s, from + 2 * i);
        if usize::from(Limits::ARITY) < a {
            return Err(Refusal::SymbolFrame);
        }
        known.arities[i] = a as u8;
    }
    if known.symbol_arities().contains(&0) {
        Ok(known)
    } else {
        Err(Refusal::SymbolFrame)
    }
}
