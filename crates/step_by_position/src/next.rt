// For each symbol and each rule the next rule, itself counted, that could step at a term with that symbol: all rules whose source has another symbol at its top,
// and those without a line, are left out.
ghost use Rattle.std.specs.Prelude.{◌≡◌, List, ℕ, ◌*◌, ◌<◌, length};
ghost use Rattle.format.specs.Limits.{max_equations};
ghost use Rattle.terms.specs.Equation.{Equation};
ghost use Rattle.step_by_position.specs.ForContracts.Next.{next_bytes, NextIs, RulesKept, HasRulesKept, NextPut};

use format::limits::Limits;
use rules::rows::Rows;
use rules::sides::sides_of;
use rules::walks::BOUNDS;

// A row for each symbol, with an entry for each rule and one behind the last.
pub const NEXT: usize = Limits::SYMBOLS * BOUNDS;

// The number is the one of the definitions.
pub fn stated()
    ensures { NEXT ≡ next_bytes }
{}

// Entry `rule` of every symbol's row: the rule itself for the symbol `top`, or for all if `top` is a variable, and if it has a line; else what the next entry has.
fn put_entries(next: &mut [u8], rule: usize, top: u8, live: bool)
    requires { (length next.old ≡ next_bytes) × (rule < 2 * max_equations) }
    ensures { NextPut next.old next.new rule top live }
{
    for f in 0..Limits::SYMBOLS {
        let at = f * BOUNDS + rule;
        let mut entry = next[at + 1];
        if live {
            if Limits::FIRST_VARIABLE <= top {
                entry = rule as u8;
            } else if usize::from(top) == f {
                entry = rule as u8;
            }
        }
        next[at] = entry;
    }
}

// The rows of all symbols, over rules whose lines are kept.
pub fn fill_next(rows: &Rows, rules: usize, bounds: &[usize], table: &[u8], next: &mut [u8])
    requires { HasRulesKept rows.now.equations.now rows.now.lengths.now rules bounds.now table.now × (length next.old ≡ next_bytes) }
    ensures { (arities : List ℕ) (es : List Equation) → RulesKept rows.now.equations.now rows.now.lengths.now rules bounds.now table.now arities es → NextIs next.new rules es }
{
    for f in 0..Limits::SYMBOLS {
        next[f * BOUNDS + rules] = rules as u8;
    }
    for rule in (0..rules).rev() {
        let sides = sides_of(rows.lengths, rule);
        let source = sides.source;
        let from = source.from;
        let top = rows.equations[from];
        let live = bounds[rule] < bounds[rule + 1];
        put_entries(next, rule, top, live);
    }
}
