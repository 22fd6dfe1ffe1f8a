// The frame of a line, from its record and its equation.
ghost use Rattle.std.specs.Prelude.{◌≡◌, ℕ, ◌+◌, ◌≤◌, ◌<◌, length};
ghost use mathlib.Core.List.{List, [], ◌∷◌, flat_map};
ghost use Rattle.format.specs.Limits.{variable_count};
ghost use Rattle.terms.specs.Equation.{Equation, term_at};
ghost use Rattle.terms.specs.Prefix.{prefix};
ghost use Rattle.terms.specs.ForContracts.Limits.{positions};
ghost use Rattle.solving.specs.Line.{Bindings, Element, line};
ghost use Rattle.solve_equation.specs.ForContracts.Equation.{SidesAre};
ghost use Rattle.listing.specs.Listing.{digits, printed, binding_count, binding_terms, element_terms, line_frame};
ghost use Rattle.listing.specs.ForContracts.Appended.{Appended};
ghost use Rattle.frames.specs.ForContracts.Room.{term_room, bindings_room, elements_room, line_room};
ghost use Rattle.frames.specs.ForContracts.Line.{HasTerm, LineRecord, HasLineRecord};

use format::limits::Limits;
use line_bytes::layout::{COUNT, FIRST_ELEMENT};
use listing::digits::{put_byte, put_bytes, put_line_feed};
use listing::kinds::PrintedKind;

// The most bytes that the frame of a line takes: two digits for each of its bytes, and LF.
pub const LINE_ROOM: usize = 2
    * (3 + Limits::VARIABLES * (1 + Limits::SIDE_NODES) + Limits::ELEMENTS * 2 * Limits::SIDE_NODES)
    + 1;

// The number is the one of the definitions.
pub fn stated()
    ensures { LINE_ROOM ≡ line_room }
{}

// The term at position `p` of the equation.
fn put_term(nodes: &[u8], sizes: &[u8], p: usize, out: &mut [u8], at: usize) -> usize
    requires { HasTerm nodes.now sizes.now p × (at + term_room ≤ length out.old) }
    ensures appended { (e : Equation) → SidesAre nodes.now sizes.now e → p < positions e → Appended out.old at (digits (prefix (term_at e p))) out.new result }
    ensures upper_bound { result ≤ at + term_room }
{
    let end = p + usize::from(sizes[p]);
    put_bytes(&nodes[p..end], out, at)
}

// The number of variables that are bound.
fn count_bindings(bytes: &[u8]) -> usize
    requires { variable_count ≤ length bytes.now }
    ensures by_index { (nodes sizes : List ℕ) (e : Equation) (θ : Bindings) (es : List Element) → LineRecord bytes.now nodes sizes e θ es → result ≡ binding_count θ }
    ensures upper_bound { result ≤ variable_count }
{
    let mut n = 0;
    for v in 0..Limits::VARIABLES {
        if bytes[v] < Limits::NO_POSITION {
            n += 1;
        }
    }
    n
}

// "each variable with its term"
fn put_bindings(bytes: &[u8], nodes: &[u8], sizes: &[u8], out: &mut [u8], at: usize) -> usize
    requires { HasLineRecord bytes.now nodes.now sizes.now × (at + bindings_room ≤ length out.old) }
    ensures appended { (e : Equation) (θ : Bindings) (es : List Element) → LineRecord bytes.now nodes.now sizes.now e θ es → Appended out.old at (digits (binding_terms e 0 θ)) out.new result }
    ensures upper_bound { result ≤ at + bindings_room }
{
    let mut to = at;
    for v in 0..Limits::VARIABLES {
        let p = bytes[v];
        if p < Limits::NO_POSITION {
            let behind = put_byte(Limits::FIRST_VARIABLE + v as u8, out, to);
            to = put_term(nodes, sizes, usize::from(p), out, behind);
        }
    }
    to
}

// "each left and right term"
fn put_elements(bytes: &[u8], nodes: &[u8], sizes: &[u8], out: &mut [u8], at: usize) -> usize
    requires { HasLineRecord bytes.now nodes.now sizes.now × (at + elements_room ≤ length out.old) }
    ensures appended { (e : Equation) (θ : Bindings) (es : List Element) → LineRecord bytes.now nodes.now sizes.now e θ es → Appended out.old at (digits (flat_map (element_terms e) es)) out.new result }
    ensures upper_bound { result ≤ at + elements_room }
{
    let count = usize::from(bytes[COUNT]);
    let mut to = at;
    for i in 0..count {
        let pair = FIRST_ELEMENT + 2 * i;
        let behind = put_term(nodes, sizes, usize::from(bytes[pair]), out, to);
        to = put_term(nodes, sizes, usize::from(bytes[pair + 1]), out, behind);
    }
    to
}

// "per line '12', binding count, each variable with its term, element count, each left and right term"
pub fn put_line(bytes: &[u8], nodes: &[u8], sizes: &[u8], out: &mut [u8], at: usize) -> usize
    requires { HasLineRecord bytes.now nodes.now sizes.now × (at + line_room ≤ length out.old) }
    ensures appended { (e : Equation) (θ : Bindings) (es : List Element) → LineRecord bytes.now nodes.now sizes.now e θ es → Appended out.old at (printed (line_frame e (line θ es) ∷ [])) out.new result }
    ensures upper_bound { result ≤ at + line_room }
{
    let head = [PrintedKind::Line as u8, count_bindings(bytes) as u8];
    let at_bindings = put_bytes(&head, out, at);
    let at_count = put_bindings(bytes, nodes, sizes, out, at_bindings);
    let at_elements = put_byte(bytes[COUNT], out, at_count);
    let end = put_elements(bytes, nodes, sizes, out, at_elements);
    put_line_feed(out, end)
}
