// The search for a step, whichever way is possible.
ghost use Rattle.std.specs.Prelude.{◌≡◌, true, List, ℕ, ◌≤◌, length, drop};
ghost use Rattle.format.specs.Limits.{table_bytes, scratch_bytes};
ghost use Rattle.terms.specs.Term.{Term};
ghost use Rattle.terms.specs.Equation.{Equation};
ghost use Rattle.terms.specs.ForContracts.Stored.{SubjectIs};
ghost use Rattle.step_by_position.specs.ForContracts.Searching.{FoundIs};
ghost use Rattle.step_search.specs.ForContracts.Seeking.{RunIs, HasRun};

use format::limits::Limits;
use rules::rows::Rows;
use step_by_position::positions::{FoundStep, Search, find_by_positions};
use step_by_rule::search::find_by_rules;

// One step: by positions where the lines of all rules fit the table together, else rule by rule.
pub fn find_step(
    rows: &Rows,
    search: Search,
    bounds: &[usize],
    next: &[u8],
    table: &mut [u8],
    nodes: &mut [u8],
    sizes: &mut [u8],
    scratch: &mut [u8],
) -> Option<FoundStep>
    requires has_run { HasRun rows.now.equations.now rows.now.lengths.now search.rules bounds.now next.now search.fits table.old nodes.old sizes.old search.size }
    requires table_bytes_in_bounds { (table_bytes ≤ length table.old) × (scratch_bytes ≤ length scratch.old) }
    ensures by_index { (arities : List ℕ) (es : List Equation) (subject : Term) → RunIs rows.now.equations.now rows.now.lengths.now search.rules bounds.now next.now search.fits table.old nodes.old sizes.old search.size arities es subject → FoundIs arities es subject result }
    ensures by_index_2 { (arities : List ℕ) (subject : Term) → SubjectIs nodes.old sizes.old arities subject → SubjectIs nodes.new sizes.new arities subject }
    ensures table_unchanged { search.fits ≡ true → table.new ≡ table.old }
    ensures table_unchanged_2 { drop table_bytes table.new ≡ drop table_bytes table.old }
    ensures scratch_unchanged { drop scratch_bytes scratch.new ≡ drop scratch_bytes scratch.old }
{
    if search.fits {
        return find_by_positions(
            rows,
            search,
            bounds,
            next,
            table,
            nodes,
            sizes,
            &mut scratch[..Limits::CELLS],
        );
    }
    find_by_rules(
        rows,
        search.rules,
        table,
        nodes,
        sizes,
        scratch,
        search.size,
    )
}
