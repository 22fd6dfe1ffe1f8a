// The search rule by rule, where the lines of all rules do not fit together: a rule is walked at most once in a step, and only if its source matches before the
// best node found so far.
ghost use Rattle.std.specs.Prelude.{◌≡◌, List, ℕ, ◌≤◌, length, drop};
ghost use Rattle.format.specs.Limits.{table_bytes, cell_count, scratch_bytes};
ghost use Rattle.terms.specs.Term.{Term};
ghost use Rattle.terms.specs.Equation.{Equation};
ghost use Rattle.terms.specs.declared.direction.Direction.{Direction};
ghost use Rattle.terms.specs.ForContracts.Stored.{SubjectIs};
ghost use Rattle.step_by_position.specs.ForContracts.Searching.{FoundIs};
ghost use Rattle.step_by_rule.specs.ForContracts.Rulewise.{FirstMatch, HasSource, SourceIs, FirstStep, KeptTry, HasKeptTry, UnkeptTry, HasUnkeptTry, AllSolve, HasAllSolve};

use format::limits::Limits;
use kept_lines::trimmed::KeptLines;
use rules::keep::keep_rule;
use rules::rows::Rows;
use rules::sides::sides_of;
use step_by_position::positions::FoundStep;
use step_match::side::match_side;
use step_try::applies::{KeptRule, applies};
use terms::arguments::Arguments;

// The first node before `end` at which the side matches.
fn first_match(
    equations: &[u8],
    side: Arguments,
    nodes: &[u8],
    sizes: &[u8],
    end: usize,
) -> Option<usize>
    requires { HasSource equations.now side nodes.now sizes.now end }
    ensures { (arities : List ℕ) (s subject : Term) → SourceIs equations.now side nodes.now sizes.now end arities s subject → FirstMatch s subject end result }
{
    let mut values = [0u8; Limits::VARIABLES];
    for node in Limits::SUBJECT..end {
        if match_side(equations, side, nodes, sizes, node, &mut values) {
            return Some(node);
        }
    }
    None
}

// The first node from `from` to `end` at which the rule, whose lines are kept, can step. It cannot before `from`.
fn first_applying(
    rows: &Rows,
    kept: KeptRule,
    table: &[u8],
    nodes: &mut [u8],
    sizes: &mut [u8],
    cells: &mut [u8],
    from: usize,
    end: usize,
) -> Option<usize>
    requires { HasKeptTry rows.now.equations.now rows.now.lengths.now kept.rule table.now kept.lines nodes.old sizes.old from end × (length cells.old ≡ cell_count) }
    ensures by_index { (arities : List ℕ) (i : ℕ) (e : Equation) (d : Direction) (subject : Term) → KeptTry rows.now.equations.now rows.now.lengths.now kept.rule table.now kept.lines nodes.old sizes.old from end arities i e d subject → FirstStep arities subject i e d end result }
    ensures by_index_2 { (arities : List ℕ) (subject : Term) → SubjectIs nodes.old sizes.old arities subject → SubjectIs nodes.new sizes.new arities subject }
{
    let mut ready = [0u8; Limits::NODES];
    for node in from..end {
        if applies(rows, kept, table, nodes, sizes, &mut ready, cells, node) {
            return Some(node);
        }
    }
    None
}

// The first node before `end` at which the rule can step.
fn first_node(
    rows: &Rows,
    rule: usize,
    table: &mut [u8],
    nodes: &mut [u8],
    sizes: &mut [u8],
    scratch: &mut [u8],
    end: usize,
) -> Option<usize>
    requires has_unkept_try { HasUnkeptTry rows.now.equations.now rows.now.lengths.now rule nodes.old sizes.old end }
    requires table_bytes_in_bounds { (table_bytes ≤ length table.old) × (scratch_bytes ≤ length scratch.old) }
    ensures by_index { (arities : List ℕ) (i : ℕ) (e : Equation) (d : Direction) (subject : Term) → UnkeptTry rows.now.equations.now rows.now.lengths.now rule nodes.old sizes.old end arities i e d subject → FirstStep arities subject i e d end result }
    ensures by_index_2 { (arities : List ℕ) (subject : Term) → SubjectIs nodes.old sizes.old arities subject → SubjectIs nodes.new sizes.new arities subject }
    ensures table_unchanged { drop table_bytes table.new ≡ drop table_bytes table.old }
    ensures scratch_unchanged { drop scratch_bytes scratch.new ≡ drop scratch_bytes scratch.old }
{
    let sides = sides_of(rows.lengths, rule);
    let from = first_match(rows.equations, sides.source, nodes, sizes, end)?;
    // Every rule solves, and the table has room for the lines of one.
    let Ok(kept) = keep_rule(rows, rule, table, 0, scratch) else {
        return None;
    };
    let last = kept?;
    let lines = KeptLines { from: 0, end: last };
    let kept_rule = KeptRule { rule, lines };
    first_applying(
        rows,
        kept_rule,
        table,
        nodes,
        sizes,
        &mut scratch[..Limits::CELLS],
        from,
        end,
    )
}

// The first step of a subject of `n` nodes, where every rule solves.
pub fn find_by_rules(
    rows: &Rows,
    rules: usize,
    table: &mut [u8],
    nodes: &mut [u8],
    sizes: &mut [u8],
    scratch: &mut [u8],
    n: usize,
) -> Option<FoundStep>
    requires has_all_solve { HasAllSolve rows.now.equations.now rows.now.lengths.now rules nodes.old sizes.old n }
    requires table_bytes_in_bounds { (table_bytes ≤ length table.old) × (scratch_bytes ≤ length scratch.old) }
    ensures by_index { (arities : List ℕ) (es : List Equation) (subject : Term) → AllSolve rows.now.equations.now rows.now.lengths.now rules nodes.old sizes.old n arities es subject → FoundIs arities es subject result }
    ensures by_index_2 { (arities : List ℕ) (subject : Term) → SubjectIs nodes.old sizes.old arities subject → SubjectIs nodes.new sizes.new arities subject }
    ensures table_unchanged { drop table_bytes table.new ≡ drop table_bytes table.old }
    ensures scratch_unchanged { drop scratch_bytes scratch.new ≡ drop scratch_bytes scratch.old }
{
    let mut best = Limits::SUBJECT + n;
    let mut found = None;
    for rule in 0..rules {
        let first = first_node(rows, rule, table, nodes, sizes, scratch, best);
        if let Some(node) = first {
            best = node;
            found = Some(FoundStep { rule, node });
        }
    }
    found
}
