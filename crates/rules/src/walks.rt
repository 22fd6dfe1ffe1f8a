// "Judge and run first walk every equation and direction in order"
ghost use Rattle.std.specs.Prelude.{◌≡◌, List, ℕ, ◌≤◌, length, drop};
ghost use Rattle.format.specs.Limits.{table_bytes};
ghost use Rattle.terms.specs.Equation.{Equation};
ghost use Rattle.walking.specs.ForContracts.Walking.{memory_bytes};
ghost use Rattle.rules.specs.ForContracts.Rows.{RowsAre, HasRows, bound_count};
ghost use Rattle.rules.specs.ForContracts.Walks.{WalksAs};

use crate::keep::keep_rule;
use crate::rows::Rows;
use format::limits::Limits;
use format::refusal::Refusal;

// The bounds of the lines of all rules: those of rule k stand from bound k to bound k + 1.
pub const BOUNDS: usize = 2 * Limits::EQUATIONS + 1;

// The refusal of a walk, and the equation that is walked.
#[derive(Clone, Copy)]
pub struct RefusedWalk {
    pub why: Refusal,
    pub equation: usize,
}

// Walks every rule of the `count` equations in order, and keeps their lines, one behind the other. Tells whether they fit together; where they do not, only those of the last
// rule are kept.
pub fn keep_rules(
    rows: &Rows,
    count: usize,
    bounds: &mut [usize],
    table: &mut [u8],
    scratch: &mut [u8],
) -> Result<bool, RefusedWalk>
    requires has_rows { HasRows rows.now.equations.now rows.now.lengths.now count × (length bounds.old ≡ bound_count) }
    requires table_bytes_in_bounds { (table_bytes ≤ length table.old) × (memory_bytes ≤ length scratch.old) }
    ensures by_index { (arities : List ℕ) (es : List Equation) → RowsAre rows.now.equations.now rows.now.lengths.now arities es → count ≡ length es → WalksAs es bounds.new table.new result }
    ensures table_unchanged { drop table_bytes table.new ≡ drop table_bytes table.old }
    ensures scratch_unchanged { drop memory_bytes scratch.new ≡ drop memory_bytes scratch.old }
{
    let rules = count + count;
    bounds[0] = 0;
    let mut fits = true;
    let mut start = 0;
    for rule in 0..rules {
        match keep_rule(rows, rule, table, start, scratch) {
            Err(why) => {
                let equation = rule / 2;
                return Err(RefusedWalk { why, equation });
            }
            Ok(kept) => {
                match kept {
                    None => {
                        fits = false;
                        start = 0;
                    }
                    Some(end) => {
                        if fits {
                            start = end;
                        }
                    }
                }
            }
        }
        bounds[rule + 1] = start;
    }
    Ok(fits)
}
