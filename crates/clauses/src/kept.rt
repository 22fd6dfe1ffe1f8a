// The decision that a cell holds, where the clause was asked for: four times the clause's number besides the verdict's part.
ghost use Rattle.std.specs.Prelude.{◌≡◌, ◌<◌, length, set};
ghost use Rattle.clauses.specs.ForContracts.Kept.{cell_of, ClauseNumbered, DecisionHeld};

use cells::settled::{CLAUSE_UNIT, held};
use ordering::decision::{Clause, Decision};
use ordering::verdict::Verdict;

// The clause with a number, as cells, which are lent bytes, hold it.
fn clause_of_number(number: u8) -> Clause
    ensures { ClauseNumbered number result }
{
    match number {
        1 => Clause::L1,
        2 => Clause::L2,
        _ => Clause::L3,
    }
}

// The decision that a cell with a clause holds.
pub fn held_decision(cell: u8) -> Decision
    ensures { DecisionHeld cell result }
{
    let clause = clause_of_number(cell / CLAUSE_UNIT);
    match held(cell) {
        Verdict::Smaller => Decision::Smaller(clause),
        Verdict::Equal => Decision::Equal,
        Verdict::Greater => Decision::Greater(clause),
    }
}

// Keeps a decision in its cell and hands it back.
pub fn keep(cells: &mut [u8], cell: usize, decision: Decision) -> Decision
    requires { cell < length cells.old }
    ensures value { result ≡ decision }
    ensures cells_after { cells.new ≡ set cells.old cell (cell_of decision) }
{
    let verdict = u8::from(decision.verdict());
    cells[cell] = verdict + 1 + CLAUSE_UNIT * decision.clause_number();
    decision
}
