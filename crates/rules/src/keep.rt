// The walk of one rule, and its lines kept.
ghost use Rattle.std.specs.Prelude.{◌≡◌, List, ℕ, ◌≤◌, length, drop};
ghost use Rattle.format.specs.Limits.{table_bytes};
ghost use Rattle.terms.specs.Equation.{Equation};
ghost use Rattle.terms.specs.declared.direction.Direction.{Direction};
ghost use Rattle.solving.specs.Walk.{solve};
ghost use Rattle.walking.specs.ForContracts.Walking.{memory_bytes};
ghost use Rattle.solve_equation.specs.ForContracts.Reports.{Leaves};
ghost use Rattle.rules.specs.ForContracts.Rows.{RuleIs, HasRuleIn};
ghost use Rattle.rules.specs.ForContracts.Walks.{RuleKeptAs};

use crate::rows::Rows;
use format::limits::Limits;
use format::refusal::Refusal;
use kept_lines::trimmed::keep_lines;
use solve_equation::positions::{MEMORY, Solved};
use solve_equation::solve::walk_direction;
use terms::direction::Direction;

// Walks a rule. The records of its lines stand first in scratch.
pub fn walk_rule(rows: &Rows, rule: usize, scratch: &mut [u8]) -> Result<Solved, Refusal>
    requires { HasRuleIn rows.now.equations.now rows.now.lengths.now rule × (memory_bytes ≤ length scratch.old) }
    ensures by_index { (arities : List ℕ) (i : ℕ) (e : Equation) (d : Direction) → RuleIs rows.now.equations.now rows.now.lengths.now arities rule i e d → Leaves (solve e d) scratch.new result }
    ensures scratch_unchanged { drop memory_bytes scratch.new ≡ drop memory_bytes scratch.old }
{
    let row = rule / 2 * Limits::POSITIONS;
    let right = row + usize::from(rows.lengths[row]);
    let end = right + usize::from(rows.lengths[right]);
    walk_direction(
        &rows.equations[row..end],
        &rows.lengths[row..end],
        Direction::of_rule(rule),
        &mut scratch[..MEMORY],
    )
}

// Walks a rule, and keeps its lines from `start` on: where they end, or none if there is no room for them.
pub fn keep_rule(
    rows: &Rows,
    rule: usize,
    table: &mut [u8],
    start: usize,
    scratch: &mut [u8],
) -> Result<Option<usize>, Refusal>
    requires has_rule_in { HasRuleIn rows.now.equations.now rows.now.lengths.now rule × (memory_bytes ≤ length scratch.old) }
    requires start_le_table_bytes { (start ≤ table_bytes) × (table_bytes ≤ length table.old) }
    ensures by_index { (arities : List ℕ) (i : ℕ) (e : Equation) (d : Direction) → RuleIs rows.now.equations.now rows.now.lengths.now arities rule i e d → RuleKeptAs e d start table.old table.new result }
    ensures scratch_unchanged { drop memory_bytes scratch.new ≡ drop memory_bytes scratch.old }
{
    let solved = walk_rule(rows, rule, scratch)?;
    Ok(keep_lines(scratch, solved.lines, table, start))
}
