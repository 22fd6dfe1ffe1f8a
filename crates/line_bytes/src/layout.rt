// How a line rests in the memory of the walk.
//
//     bytes      0 ..          VARIABLES   VARIABLES + 1 ..                          RECORD
//              +-------------+-----------+-------------------------+---------------+-----------+
//              |  bindings   |   count   |  a pair for each        |  NO_POSITION  |  reduced  |
//              |  (a byte    |    of     |  element, an equality's |  to the end   |   count   |
//              |  each)      |  elements |  first byte marked      |               |           |
//              +-------------+-----------+-------------------------+---------------+-----------+
//              `---------------------- the record: RECORD bytes -------------------'
//              `---------------------------- the line: LINE bytes -----------------------------'
//
// The last byte says how many of the first elements are known to be fully reduced. Without it a finished line is its record.
ghost use Rattle.std.specs.Prelude.{◌≡◌};
ghost use Rattle.line_bytes.specs.ForContracts.Layout.{count_place, first_element, reduced_place, line_bytes};

use format::limits::Limits;

// The bytes of a line.
pub const LINE: usize = Limits::RECORD + 1;

// Where the number of elements stands, the first element, and the count of those known to be fully reduced.
pub const COUNT: usize = Limits::VARIABLES;

pub const FIRST_ELEMENT: usize = Limits::VARIABLES + 1;

pub const REDUCED: usize = Limits::RECORD;

// Each number is the one of the definitions.
pub fn stated()
    ensures value { LINE ≡ line_bytes }
    ensures value_2 { COUNT ≡ count_place }
    ensures first_element_value { FIRST_ELEMENT ≡ first_element }
    ensures value_3 { REDUCED ≡ reduced_place }
{}
