// The walk of one direction of an equation, from the equation's bytes.
ghost use Rattle.std.specs.Prelude.{◌≡◌, List, ℕ, ◌≤◌, ◌<◌, length, drop};
ghost use Rattle.format.specs.Limits.{table_bytes};
ghost use Rattle.terms.specs.Equation.{Equation};
ghost use Rattle.solving.specs.Walk.{solve};
ghost use Rattle.solve_equation.specs.ForContracts.Equation.{EquationIs, HasEquation, SidesAre, HasSides, EndsAre};
ghost use Rattle.walking.specs.ForContracts.Walking.{memory_bytes};
ghost use Rattle.solve_equation.specs.ForContracts.Reports.{Reports, Leaves};

use crate::positions::{MEMORY, Solved, walk_positions};
use format::copy::copy_front;
use format::limits::Limits;
use format::refusal::Refusal;
use terms::direction::Direction;
use terms::measure::measure;

// Where the two sides of a direction stand among the equation's positions. No `Sides` of `treating`, whose names would be wrong: the source may be the right side.
#[derive(Clone, Copy)]
pub struct Ends {
    pub source: usize,
    pub target: usize,
}

// "Direction 00 is left > right, 01 is right > left"
pub fn ends_of(sizes: &[u8], direction: Direction) -> Ends
    requires { 0 < length sizes.now }
    ensures { (nodes : List ℕ) (e : Equation) → SidesAre nodes sizes.now e → EndsAre e direction result }
{
    let right = usize::from(sizes[0]);
    match direction {
        Direction::LeftRight => Ends {
            source: 0,
            target: right,
        },
        Direction::RightLeft => Ends {
            source: right,
            target: 0,
        },
    }
}

// The walk of one direction of the equation with these bytes and sizes. The records of the solved lines stand first in `memory`.
pub fn walk_direction(
    nodes: &[u8],
    sizes: &[u8],
    direction: Direction,
    memory: &mut [u8],
) -> Result<Solved, Refusal>
    requires { HasSides nodes.now sizes.now × (length memory.old ≡ memory_bytes) }
    ensures { (e : Equation) → SidesAre nodes.now sizes.now e → Leaves (solve e direction) memory.new result }
{
    let ends = ends_of(sizes, direction);
    walk_positions(nodes, sizes, ends.source, ends.target, memory)
}

// Solves one direction of the equation with these bytes. The records of the solved lines stand first in `table`; a refused walk leaves it as it was. Scratch holds anything in the bytes that the walk works in.
pub fn solve_equation(
    bytes: &[u8],
    arities: &[u8],
    direction: Direction,
    table: &mut [u8],
    scratch: &mut [u8],
) -> Result<Solved, Refusal>
    requires has_equation { HasEquation bytes.now arities.now }
    requires table_bytes_in_bounds { (table_bytes ≤ length table.old) × (memory_bytes ≤ length scratch.old) }
    ensures reports { (e : Equation) → EquationIs bytes.now arities.now e → Reports (solve e direction) table.old table.new result }
    ensures scratch_unchanged { drop memory_bytes scratch.new ≡ drop memory_bytes scratch.old }
{
    let mut sizes = [0u8; Limits::POSITIONS];
    let n = bytes.len();
    measure(bytes, arities, &mut sizes, 0, n);
    let solved = walk_direction(bytes, &sizes[..n], direction, &mut scratch[..MEMORY])?;
    copy_front(scratch, table, solved.lines * Limits::RECORD);
    Ok(solved)
}
