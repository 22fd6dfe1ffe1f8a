// The elements of a line, and their bytes.
ghost use Rattle.std.specs.Prelude.{◌≡◌, [], ◌∷◌, ◌+◌, ◌≤◌, ◌<◌, length, get_or};
ghost use Rattle.line_bytes.specs.ForContracts.Layout.{placed};
ghost use Rattle.line_bytes.specs.ForContracts.Resting.{meaning, marked, marks, Markable};

use crate::edit::put;

// An inequality or an equality, each between two positions.
#[derive(Clone, Copy)]
pub enum Relation {
    Greater(u8, u8),
    Equal(u8, u8),
}

#[derive(Clone, Copy)]
pub struct Element {
    pub relation: Relation,
}

// Marks the first position of an equality. Positions are below it.
pub const EQUALITY: u8 = 128;

// The element whose two bytes stand at `at`, in a line or in a record.
pub fn element_at(bytes: &[u8], at: usize) -> Element
    requires { at + 1 < length bytes.now }
    ensures { meaning result ≡ marked (get_or bytes.now at 0) (get_or bytes.now (at + 1) 0) }
{
    let first = bytes[at];
    let second = bytes[at + 1];
    let relation = if first < EQUALITY {
        Relation::Greater(first, second)
    } else {
        Relation::Equal(first - EQUALITY, second)
    };
    Element { relation }
}

// Puts the element's two bytes at `at`.
pub fn put_element(bytes: &mut [u8], at: usize, element: Element)
    requires { (at + 2 ≤ length bytes.old) × Markable (meaning element ∷ []) }
    ensures { bytes.new ≡ placed at (marks (meaning element ∷ [])) bytes.old }
{
    match element.relation {
        Relation::Greater(p, q) => put(bytes, at, p, q),
        Relation::Equal(p, q) => put(bytes, at, p + EQUALITY, q),
    }
}
