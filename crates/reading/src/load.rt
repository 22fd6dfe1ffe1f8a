// The terms of a task, one behind the other, stored from the subject's first node on.
ghost use Rattle.std.specs.Prelude.{◌≡◌, length};
ghost use Rattle.format.specs.Limits.{node_count};
ghost use Rattle.terms.specs.Term.{Terms};
ghost use Rattle.terms.specs.ForContracts.Stored.{AllSymbols};
ghost use Rattle.reading.specs.ForContracts.Loading.{TermsIn, HasTermsIn, Loaded};

use crate::seek::decode;
use format::limits::Limits;
use scanning::text::{SheetPart, Span};
use terms::measure::measure;

// Stores the terms that the digits write, with their sizes; how many nodes they have.
pub fn load_terms(
    sheet: &[u8],
    digits: Span,
    arities: &[u8],
    nodes: &mut [u8],
    sizes: &mut [u8],
) -> usize
    requires has_terms_in { HasTermsIn sheet.now arities.now digits.from digits.end }
    requires nodes_len { (length nodes.old ≡ node_count) × (length sizes.old ≡ node_count) × AllSymbols nodes.old }
    ensures { (ts : Terms) → TermsIn sheet.now arities.now digits.from digits.end ts → Loaded arities.now nodes.new sizes.new ts result }
{
    let written = SheetPart {
        sheet,
        span: digits,
    };
    let n = decode(written, &mut nodes[Limits::SUBJECT..]);
    measure(nodes, arities, sizes, Limits::SUBJECT, Limits::SUBJECT + n);
    n
}
