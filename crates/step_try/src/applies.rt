// Whether a rule can step at a node: its source matches there, and one of its lines holds at the match.
ghost use Rattle.std.specs.Prelude.{◌≡◌, List, ℕ, ◌≤◌, length, take};
ghost use Rattle.format.specs.Limits.{position_count};
ghost use Rattle.format.specs.Buffer.{written};
ghost use Rattle.terms.specs.Filling.{filling};
ghost use Rattle.terms.specs.Term.{Term};
ghost use Rattle.terms.specs.Equation.{Equation};
ghost use Rattle.terms.specs.declared.direction.Direction.{Direction};
ghost use Rattle.terms.specs.ForContracts.Stored.{SubjectIs};
ghost use Rattle.reducing.specs.Match.{Match};
ghost use Rattle.step_try.specs.ForContracts.Trying.{Settled, TryIs, HasTry, Applies, MatchedTry, HasMatchedTry, LinesTell};

use cells::settled::clear;
use comparing::comparison::Compared;
use format::copy::copy_front;
use format::limits::Limits;
use kept_lines::holding::first_holding;
use kept_lines::trimmed::KeptLines;
use rules::rows::Rows;
use rules::sides::sides_of;
use step_match::side::match_side;

// A rule, and where its lines are kept in the table.
#[derive(Clone, Copy)]
pub struct KeptRule {
    pub rule: usize,
    pub lines: KeptLines,
}

// The first row of `from` stands first in `to`. It goes by way of an array that overlaps neither, so that the compiler need not copy byte by byte.
fn load_row(from: &[u8], to: &mut [u8])
    requires { (position_count ≤ length from.now) × (position_count ≤ length to.old) }
    ensures { to.new ≡ written (take position_count from.now) to.old }
{
    let mut row = [0u8; Limits::POSITIONS];
    copy_front(from, &mut row, Limits::POSITIONS);
    copy_front(&row, to, Limits::POSITIONS);
}

// Whether one of the kept lines holds at the match. The equation's row is loaded before the subject, so that no row of cells of its nodes is ready; the cells of pairs of subject nodes stay settled.
fn match_holds(
    rows: &Rows,
    kept: KeptRule,
    table: &[u8],
    nodes: &mut [u8],
    sizes: &mut [u8],
    values: &[u8; Limits::VARIABLES],
    ready: &mut [u8; Limits::NODES],
    cells: &mut [u8],
) -> bool
    requires has_matched_try { HasMatchedTry rows.now.equations.now rows.now.lengths.now kept.rule table.now kept.lines nodes.old sizes.old values.now }
    requires settled { Settled nodes.old sizes.old ready.old cells.old }
    ensures by_index { (arities : List ℕ) (i : ℕ) (e : Equation) (d : Direction) (subject : Term) (m : Match) → MatchedTry rows.now.equations.now rows.now.lengths.now kept.rule table.now kept.lines nodes.old sizes.old values.now arities i e d subject m → LinesTell (filling arities) e d m result }
    ensures by_index_2 { (arities : List ℕ) (subject : Term) → SubjectIs nodes.old sizes.old arities subject → SubjectIs nodes.new sizes.new arities subject }
    ensures settled_2 { Settled nodes.new sizes.new ready.new cells.new }
{
    let row = kept.rule / 2 * Limits::POSITIONS;
    load_row(&rows.equations[row..], nodes);
    load_row(&rows.lengths[row..], sizes);
    clear(ready, 0, Limits::SUBJECT);
    let compared = Compared {
        nodes,
        sizes,
        values,
    };
    first_holding(table, kept.lines, &compared, ready, cells).is_some()
}

// Whether the rule, whose lines are kept, can step at `node`.
pub fn applies(
    rows: &Rows,
    kept: KeptRule,
    table: &[u8],
    nodes: &mut [u8],
    sizes: &mut [u8],
    ready: &mut [u8; Limits::NODES],
    cells: &mut [u8],
    node: usize,
) -> bool
    requires has_try { HasTry rows.now.equations.now rows.now.lengths.now kept.rule table.now kept.lines nodes.old sizes.old node }
    requires settled { Settled nodes.old sizes.old ready.old cells.old }
    ensures by_index { (arities : List ℕ) (i : ℕ) (e : Equation) (d : Direction) (subject : Term) (p : ℕ) → TryIs rows.now.equations.now rows.now.lengths.now kept.rule table.now kept.lines nodes.old sizes.old node arities i e d subject p → Applies (filling arities) subject p i e d result }
    ensures by_index_2 { (arities : List ℕ) (subject : Term) → SubjectIs nodes.old sizes.old arities subject → SubjectIs nodes.new sizes.new arities subject }
    ensures settled_2 { Settled nodes.new sizes.new ready.new cells.new }
{
    let mut values = [0u8; Limits::VARIABLES];
    let sides = sides_of(rows.lengths, kept.rule);
    match_side(
        rows.equations,
        sides.source,
        nodes,
        sizes,
        node,
        &mut values,
    ) && match_holds(rows, kept, table, nodes, sizes, &values, ready, cells)
}
