// A judgement: the first line of a direction that holds at given values.
ghost use Rattle.std.specs.Prelude.{◌≡◌, List, ℕ, ◌+◌, ◌≤◌, length, drop, replicate};
ghost use Rattle.format.specs.Limits.{variable_count, position_count, table_bytes, cell_count};
ghost use Rattle.terms.specs.Term.{Terms};
ghost use Rattle.terms.specs.Equation.{Equation, value};
ghost use Rattle.terms.specs.declared.direction.Direction.{Direction};
ghost use Rattle.solving.specs.Line.{Line};
ghost use Rattle.solving.specs.Judge.{first_holding};
ghost use Rattle.solving.specs.ForContracts.Told.{LineTold};
ghost use Rattle.reducing.specs.Test.{given_values};
ghost use Rattle.walking.specs.ForContracts.Walking.{memory_bytes};
ghost use Rattle.reading.specs.ForContracts.Loading.{Loaded};
ghost use Rattle.rules.specs.ForContracts.Rows.{RowsAre, HasRows};
ghost use Rattle.judge_rule.specs.ForContracts.Judgement.{ValuesAt, HasLoaded, JudgeIs, HasJudge, JudgedAs};

use comparing::comparison::Compared;
use format::copy::copy_front;
use format::limits::Limits;
use kept_lines::holding::first_holding;
use kept_lines::trimmed::{KeptLines, keep_lines};
use rules::keep::walk_rule;
use rules::rows::Rows;
use rules::walks::RefusedWalk;

// The node of each value, where the values stand from the subject's first node to `end`.
fn place_values(sizes: &[u8], end: usize, values: &mut [u8])
    requires { HasLoaded sizes.now end × (values.old ≡ replicate variable_count 0) }
    ensures { (arities nodes : List ℕ) (ts : Terms) (n : ℕ) → Loaded arities nodes sizes.now ts n → end ≡ position_count + n → ValuesAt arities nodes sizes.now values.new ts }
{
    let mut node = Limits::SUBJECT;
    let mut v = 0;
    while node < end {
        values[v] = node as u8;
        node += usize::from(sizes[node]);
        v += 1;
    }
}

// The first of the kept lines of a rule that holds at the values, which have `n` nodes, counted from 1.
pub fn judge_lines(
    rows: &Rows,
    rule: usize,
    table: &[u8],
    lines: KeptLines,
    nodes: &mut [u8],
    sizes: &mut [u8],
    cells: &mut [u8],
    n: usize,
) -> Option<usize>
    requires { HasJudge rows.now.equations.now rows.now.lengths.now rule table.now lines nodes.old sizes.old n × (length cells.old ≡ cell_count) }
    ensures { (arities : List ℕ) (i : ℕ) (e : Equation) (d : Direction) (ls : List Line) (ts : Terms) → JudgeIs rows.now.equations.now rows.now.lengths.now rule table.now lines nodes.old sizes.old n arities i e d ls ts → LineTold result (first_holding (given_values ts) (value e (given_values ts)) ls) }
{
    let mut values = [0u8; Limits::VARIABLES];
    place_values(sizes, Limits::SUBJECT + n, &mut values);
    let row = rule / 2 * Limits::POSITIONS;
    copy_front(&rows.equations[row..], nodes, Limits::POSITIONS);
    copy_front(&rows.lengths[row..], sizes, Limits::POSITIONS);
    let mut ready = [0u8; Limits::NODES];
    let compared = Compared {
        nodes,
        sizes,
        values: &values,
    };
    first_holding(table, lines, &compared, &mut ready, cells)
}

// Walks every rule of the `count` equations in order, and keeps the lines of the one that is judged: where they end. Not by `keep_rules`, which keeps those
// of all: the lines of one rule always have room.
pub fn walk_judged(
    rows: &Rows,
    count: usize,
    judged: usize,
    table: &mut [u8],
    scratch: &mut [u8],
) -> Result<usize, RefusedWalk>
    requires { HasRows rows.now.equations.now rows.now.lengths.now count × (table_bytes ≤ length table.old) × (memory_bytes ≤ length scratch.old) }
    ensures by_index { (arities : List ℕ) (es : List Equation) → RowsAre rows.now.equations.now rows.now.lengths.now arities es → count ≡ length es → JudgedAs es judged table.new result }
    ensures table_unchanged { drop table_bytes table.new ≡ drop table_bytes table.old }
    ensures scratch_unchanged { drop memory_bytes scratch.new ≡ drop memory_bytes scratch.old }
{
    let rules = count + count;
    let mut end = 0;
    for rule in 0..rules {
        match walk_rule(rows, rule, scratch) {
            Err(why) => {
                let equation = rule / 2;
                return Err(RefusedWalk { why, equation });
            }
            Ok(solved) => {
                if rule == judged {
                    let kept = keep_lines(scratch, solved.lines, table, 0);
                    // The table has room for the lines of one rule.
                    if let Some(last) = kept {
                        end = last;
                    }
                }
            }
        }
    }
    Ok(end)
}
