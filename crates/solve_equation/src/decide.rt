// "says yes as soon as the whole table .. has a finished line with no binding and no element, else no when the walk ends": for one direction of an equation, from
// the equation's bytes.
ghost use Rattle.std.specs.Prelude.{◌≡◌, ◌≤◌, ◌<◌, length, drop};
ghost use Rattle.terms.specs.Equation.{Equation};
ghost use Rattle.solving.specs.Always.{always};
ghost use Rattle.bindings.specs.ForContracts.PrefixForm.{InPrefixForm};
ghost use Rattle.walking.specs.ForContracts.Walking.{memory_bytes};
ghost use Rattle.solve_equation.specs.ForContracts.Equation.{EquationIs, HasEquation};
ghost use Rattle.solve_equation.specs.ForContracts.Decides.{answered_as, decided};

use crate::positions::{MEMORY, walk_between};
use crate::solve::ends_of;
use format::limits::Limits;
use format::refusal::Refusal;
use terms::direction::Direction;
use terms::measure::measure;

// Yes or no, with "the turns taken by then".
#[derive(Clone, Copy)]
pub struct Answer {
    pub yes: bool,
    pub turns: u16,
}

// The answer for source > target, over an equation's bytes and sizes. `memory` holds anything at exit.
fn decide_positions(
    nodes: &[u8],
    sizes: &[u8],
    source: usize,
    target: usize,
    memory: &mut [u8],
) -> Result<Answer, Refusal>
    requires in_prefix_form { InPrefixForm nodes.now sizes.now × (source < length nodes.now) × (target < length nodes.now) }
    requires memory_len { length memory.old ≡ memory_bytes }
    ensures { answered_as result ≡ decided nodes.now sizes.now source target }
{
    let walk = walk_between(nodes, sizes, source, target, true, memory)?;
    // A line is left unfinished exactly if the walk has stopped.
    let yes = walk.top < Limits::LINES;
    Ok(Answer {
        yes,
        turns: walk.turns,
    })
}

// The answer for one direction of the equation with these bytes. Scratch holds anything in the bytes that the walk works in.
pub fn decide_equation(
    bytes: &[u8],
    arities: &[u8],
    direction: Direction,
    scratch: &mut [u8],
) -> Result<Answer, Refusal>
    requires { HasEquation bytes.now arities.now × (memory_bytes ≤ length scratch.old) }
    ensures result_value { (e : Equation) → EquationIs bytes.now arities.now e → answered_as result ≡ always e direction }
    ensures scratch_unchanged { drop memory_bytes scratch.new ≡ drop memory_bytes scratch.old }
{
    let mut sizes = [0u8; Limits::POSITIONS];
    let n = bytes.len();
    measure(bytes, arities, &mut sizes, 0, n);
    let ends = ends_of(&sizes[..n], direction);
    decide_positions(
        bytes,
        &sizes[..n],
        ends.source,
        ends.target,
        &mut scratch[..MEMORY],
    )
}
