// The comparison of two whole terms (document 02, W8): their verdict, and the first of L1, L2, L3 that gives it. The verdict of a pair comes from one question
// (ordering/specs/Theory/Question), which does not tell whether L1 applies too. So of two whole terms L1 is asked as well, one way round or both: before the verdict where the
// symbols differ, and after it where they are the same, with the pairs that are settled by then.
//
// Of two ground terms an argument of the second reaches the first exactly if the first does not exceed them all. L1 from the second to the first is asked that way round, because
// the second node of a cell is the subject's.
ghost use Rattle.std.specs.Prelude.{◌≡◌, ◌≤◌, ◌<◌, get_or};
ghost use Rattle.format.specs.Limits.{first_variable, position_count};
ghost use Rattle.cells.specs.ForContracts.Cells.{SettledCells};
ghost use Rattle.comparing.specs.ForContracts.Comparing.{HasTerm};
ghost use Rattle.clauses.specs.ForContracts.Clauses.{first_of, DecisionOf};

use crate::greater::decide_greater_symbol;
use crate::kept::{held_decision, keep};
use crate::questions::{exceeds_all, some_reaches};
use crate::smaller::decide_smaller_symbol;
use cells::settled::{CLAUSE_UNIT, make_ready};
use comparing::comparison::Compared;
use format::limits::Limits;
use ordering::decision::{Clause, Decision};
use ordering::verdict::Verdict;
use terms::arguments::arguments_of;

// The first clause that applies, where `other` does: L1, or `other`.
#[tactic(auto, unfolding(crate::specs::ForContracts::Clauses::first_of))]
fn first_of(reached: bool, other: Clause) -> Clause
    ensures { result ≡ first_of reached other }
{
    if reached { Clause::L1 } else { other }
}

// Compares the terms at i and j, whose symbols are the same: L2 cannot apply.
fn decide_same_symbol(
    compared: &Compared,
    ready: &mut [u8; Limits::NODES],
    cells: &mut [u8],
    i: usize,
    j: usize,
) -> Decision
    requires settled_cells { SettledCells compared.now.nodes.now compared.now.sizes.now compared.now.values.now ready.old cells.old }
    requires has_term { HasTerm compared.now.nodes.now compared.now.sizes.now compared.now.values.now i × (get_or compared.now.nodes.now i 0 < first_variable) }
    requires has_term_2 { HasTerm compared.now.nodes.now compared.now.sizes.now compared.now.values.now j × (position_count ≤ j) }
    requires i_value { get_or compared.now.nodes.now i 0 ≡ get_or compared.now.nodes.now j 0 }
    ensures decision_of { DecisionOf compared.now.nodes.now compared.now.sizes.now compared.now.values.now i j result }
    ensures settled_cells_2 { SettledCells compared.now.nodes.now compared.now.sizes.now compared.now.values.now ready.new cells.new }
{
    match compared.exceeds(ready, cells, i, j) {
        Verdict::Smaller => {
            let row = arguments_of(compared.sizes, j);
            let exceeded = exceeds_all(compared, ready, cells, i, row);
            Decision::Smaller(first_of(!exceeded, Clause::L3))
        }
        Verdict::Equal => Decision::Equal,
        Verdict::Greater => {
            let row = arguments_of(compared.sizes, i);
            let reached = some_reaches(compared, ready, cells, row, j);
            Decision::Greater(first_of(reached, Clause::L3))
        }
    }
}

// Compares the terms at i and j, of which no decision is kept.
fn decide(
    compared: &Compared,
    ready: &mut [u8; Limits::NODES],
    cells: &mut [u8],
    i: usize,
    j: usize,
) -> Decision
    requires settled_cells { SettledCells compared.now.nodes.now compared.now.sizes.now compared.now.values.now ready.old cells.old }
    requires has_term { HasTerm compared.now.nodes.now compared.now.sizes.now compared.now.values.now i × (get_or compared.now.nodes.now i 0 < first_variable) }
    requires has_term_2 { HasTerm compared.now.nodes.now compared.now.sizes.now compared.now.values.now j × (position_count ≤ j) }
    ensures decision_of { DecisionOf compared.now.nodes.now compared.now.sizes.now compared.now.values.now i j result }
    ensures settled_cells_2 { SettledCells compared.now.nodes.now compared.now.sizes.now compared.now.values.now ready.new cells.new }
{
    let f = compared.nodes[i];
    let g = compared.nodes[j];
    if g < f {
        return decide_greater_symbol(compared, ready, cells, i, j);
    }
    if f < g {
        return decide_smaller_symbol(compared, ready, cells, i, j);
    }
    decide_same_symbol(compared, ready, cells, i, j)
}

// Compares the terms at the nodes i and j; i is no variable, j is the subject's. A run tests the same pair many times: its decision is kept in its cell.
pub fn compare(
    compared: &Compared,
    ready: &mut [u8; Limits::NODES],
    cells: &mut [u8],
    i: usize,
    j: usize,
) -> Decision
    requires settled_cells { SettledCells compared.now.nodes.now compared.now.sizes.now compared.now.values.now ready.old cells.old }
    requires has_term { HasTerm compared.now.nodes.now compared.now.sizes.now compared.now.values.now i × (get_or compared.now.nodes.now i 0 < first_variable) }
    requires has_term_2 { HasTerm compared.now.nodes.now compared.now.sizes.now compared.now.values.now j × (position_count ≤ j) }
    ensures decision_of { DecisionOf compared.now.nodes.now compared.now.sizes.now compared.now.values.now i j result }
    ensures settled_cells_2 { SettledCells compared.now.nodes.now compared.now.sizes.now compared.now.values.now ready.new cells.new }
{
    make_ready(ready, cells, i);
    let cell = i * Limits::ROW_CELLS + j;
    let known = cells[cell];
    if CLAUSE_UNIT <= known {
        return held_decision(known);
    }
    let decision = decide(compared, ready, cells, i, j);
    keep(cells, cell, decision)
}
