// The search by positions, as the definition has it: over the kept lines of all rules.
ghost use Rattle.std.specs.Prelude.{◌≡◌, List, ℕ, length};
ghost use Rattle.format.specs.Limits.{cell_count};
ghost use Rattle.terms.specs.Term.{Term};
ghost use Rattle.terms.specs.Equation.{Equation};
ghost use Rattle.terms.specs.ForContracts.Stored.{SubjectIs};
ghost use Rattle.step_by_position.specs.ForContracts.Searching.{FoundIs};
ghost use Rattle.step_by_position.specs.ForContracts.Next.{SearchIs, HasSearch};

use format::limits::Limits;
use kept_lines::trimmed::KeptLines;
use rules::rows::Rows;
use rules::walks::BOUNDS;
use step_try::applies::{KeptRule, applies};

// A step that a search finds: a rule that can step at a node.
#[derive(Clone, Copy)]
pub struct FoundStep {
    pub rule: usize,
    pub node: usize,
}

// What a search goes by besides the buffers: the rules, whether the lines of all fit the table together, and the subject's nodes.
#[derive(Clone, Copy)]
pub struct Search {
    pub rules: usize,
    pub fits: bool,
    pub size: usize,
}

// "positions of the subject ascending", at each "equations ascending, direction 00 before 01": the first step, where the lines of all rules are kept.
pub fn find_by_positions(
    rows: &Rows,
    search: Search,
    bounds: &[usize],
    next: &[u8],
    table: &[u8],
    nodes: &mut [u8],
    sizes: &mut [u8],
    cells: &mut [u8],
) -> Option<FoundStep>
    requires { HasSearch rows.now.equations.now rows.now.lengths.now search.rules bounds.now next.now table.now nodes.old sizes.old search.size × (length cells.old ≡ cell_count) }
    ensures by_index { (arities : List ℕ) (es : List Equation) (subject : Term) → SearchIs rows.now.equations.now rows.now.lengths.now search.rules bounds.now next.now table.now nodes.old sizes.old arities es subject → FoundIs arities es subject result }
    ensures by_index_2 { (arities : List ℕ) (subject : Term) → SubjectIs nodes.old sizes.old arities subject → SubjectIs nodes.new sizes.new arities subject }
{
    let mut ready = [0u8; Limits::NODES];
    let rules = search.rules;
    let end = Limits::SUBJECT + search.size;
    for node in Limits::SUBJECT..end {
        let row = usize::from(nodes[node]) * BOUNDS;
        let mut rule = usize::from(next[row]);
        while rule < rules {
            let lines = KeptLines {
                from: bounds[rule],
                end: bounds[rule + 1],
            };
            let kept = KeptRule { rule, lines };
            if applies(rows, kept, table, nodes, sizes, &mut ready, cells, node) {
                return Some(FoundStep { rule, node });
            }
            rule = usize::from(next[row + rule + 1]);
        }
    }
    None
}
