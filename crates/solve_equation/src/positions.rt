// The walk of one direction over an equation's bytes.
ghost use Rattle.std.specs.Prelude.{◌≡◌, ◌<◌, length};
ghost use Rattle.bindings.specs.ForContracts.PrefixForm.{InPrefixForm};
ghost use Rattle.walking.specs.ForContracts.Walking.{memory_bytes, Walking};
ghost use Rattle.stopping.specs.ForContracts.Ends.{WalkEnds};
ghost use Rattle.solve_equation.specs.ForContracts.Reports.{LeavesWalk};

use crate::variables::collect_variables;
use bindings::equation::EquationTerms;
use format::limits::Limits;
use format::refusal::Refusal;
use line_bytes::edit::store;
use line_bytes::layout::LINE;
use lines::line::Line;
use stopping::walk::go_on;
use walking::walk::Walk;

// The place of the first line: the last of the memory.
const FIRST: usize = Limits::LINES - 1;

// The bytes of the memory: a place for each line.
pub const MEMORY: usize = Limits::LINES * LINE;

// The counts of lines and turns of a walk that solves.
#[derive(Clone, Copy)]
pub struct Solved {
    pub lines: usize,
    pub turns: u16,
}

// "at first the one line with s > t and no binding"
fn begin_walk(nodes: &[u8], sizes: &[u8], source: usize, target: usize, memory: &mut [u8]) -> Walk
    requires in_prefix_form { InPrefixForm nodes.now sizes.now × (source < length nodes.now) × (target < length nodes.now) }
    requires memory_len { length memory.old ≡ memory_bytes }
    ensures walking { Walking nodes.now sizes.now memory.new result }
    ensures source_value { (result.source ≡ source) × (result.target ≡ target) × (result.turns ≡ 0) }
{
    let opening = Line::opening(source as u8, target as u8);
    let mut line = [Limits::NO_POSITION; LINE];
    opening.write(&mut line);
    store(&line, memory, FIRST * LINE);
    Walk {
        source,
        target,
        done: 0,
        top: FIRST,
        turns: 0,
    }
}

// Walks source > target over an equation's bytes and sizes, from its first line to its end. This is the one place that the loop is called from, so that it is
// compiled into it.
pub fn walk_between(
    nodes: &[u8],
    sizes: &[u8],
    source: usize,
    target: usize,
    stops: bool,
    memory: &mut [u8],
) -> Result<Walk, Refusal>
    requires in_prefix_form { InPrefixForm nodes.now sizes.now × (source < length nodes.now) × (target < length nodes.now) }
    requires memory_len { length memory.old ≡ memory_bytes }
    ensures { WalkEnds nodes.now sizes.now memory.new stops source target result }
{
    let n = nodes.len();
    let mut variables = [0u16; Limits::POSITIONS];
    collect_variables(nodes, sizes, &mut variables[..n]);
    let first = begin_walk(nodes, sizes, source, target, memory);
    let equation = EquationTerms {
        nodes,
        sizes,
        variables: &variables[..n],
    };
    go_on(first, stops, &equation, memory)
}

// Solves source > target over an equation's bytes and sizes. The records of the solved lines stand first in `memory`.
pub fn walk_positions(
    nodes: &[u8],
    sizes: &[u8],
    source: usize,
    target: usize,
    memory: &mut [u8],
) -> Result<Solved, Refusal>
    requires in_prefix_form { InPrefixForm nodes.now sizes.now × (source < length nodes.now) × (target < length nodes.now) }
    requires memory_len { length memory.old ≡ memory_bytes }
    ensures { LeavesWalk nodes.now sizes.now source target memory.new result }
{
    let walk = walk_between(nodes, sizes, source, target, false, memory)?;
    Ok(Solved {
        lines: walk.done,
        turns: walk.turns,
    })
}
