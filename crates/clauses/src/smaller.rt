// Two whole terms, of which the first has the smaller symbol.
ghost use Rattle.std.specs.Prelude.{◌≤◌, ◌<◌, get_or};
ghost use Rattle.format.specs.Limits.{first_variable, position_count};
ghost use Rattle.cells.specs.ForContracts.Cells.{SettledCells};
ghost use Rattle.comparing.specs.ForContracts.Comparing.{HasTerm};
ghost use Rattle.clauses.specs.ForContracts.Clauses.{DecisionOf};

use crate::questions::{exceeds_all, some_reaches};
use comparing::comparison::Compared;
use format::limits::Limits;
use ordering::decision::{Clause, Decision};
use terms::arguments::arguments_of;

// Compares the terms at i and j. The L1 of the second term is asked first: where it applies, nothing is left to ask.
// No one function with `decide_greater_symbol`: the same two questions come in the other order, and of the three ends only two are the same.
pub fn decide_smaller_symbol(
    compared: &Compared,
    ready: &mut [u8; Limits::NODES],
    cells: &mut [u8],
    i: usize,
    j: usize,
) -> Decision
    requires settled_cells { SettledCells compared.now.nodes.now compared.now.sizes.now compared.now.values.now ready.old cells.old }
    requires has_term { HasTerm compared.now.nodes.now compared.now.sizes.now compared.now.values.now i × (get_or compared.now.nodes.now i 0 < first_variable) }
    requires has_term_2 { HasTerm compared.now.nodes.now compared.now.sizes.now compared.now.values.now j × (position_count ≤ j) }
    requires i_bound { get_or compared.now.nodes.now i 0 < get_or compared.now.nodes.now j 0 }
    ensures decision_of { DecisionOf compared.now.nodes.now compared.now.sizes.now compared.now.values.now i j result }
    ensures settled_cells_2 { SettledCells compared.now.nodes.now compared.now.sizes.now compared.now.values.now ready.new cells.new }
{
    let others = arguments_of(compared.sizes, j);
    if exceeds_all(compared, ready, cells, i, others) {
        let row = arguments_of(compared.sizes, i);
        if some_reaches(compared, ready, cells, row, j) {
            return Decision::Greater(Clause::L1);
        }
        return Decision::Smaller(Clause::L2);
    }
    Decision::Smaller(Clause::L1)
}
