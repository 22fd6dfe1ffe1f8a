// Whether a line holds at values, and the first that does. The values are terms of the subject, and the equation's nodes stand before the subject's.
// "All users of the comparison take the new result" (document 02, W8): of it the verdict alone is used here.
ghost use Rattle.std.specs.Prelude.{◌≡◌, ◌↔◌, true, List, ℕ, ◌<◌};
ghost use Rattle.format.specs.Limits.{variable_count};
ghost use Rattle.terms.specs.Term.{Term, Values};
ghost use Rattle.path_order.specs.Order.{◌≻◌};
ghost use Rattle.solving.specs.Line.{Bindings, Element as LineElement, greater, Line};
ghost use Rattle.solving.specs.Holds.{BindingsHold, ElementsHold, LineHolds};
ghost use Rattle.solving.specs.Judge.{first_holding};
ghost use Rattle.solving.specs.ForContracts.Told.{LineTold};
ghost use Rattle.cells.specs.ForContracts.Cells.{SettledCells};
ghost use Rattle.kept_lines.specs.ForContracts.Holding.{BindingTestable, HasBinding, ElementTestable, HasInequality, BindingsAre, HasBindings, ElementsAre, HasElements, LineIs, HasLine, LinesAre, HasLines};

use crate::trimmed::{KeptLines, trimmed_length};
use cells::nodes::resolve;
use clauses::compare::compare;
use comparing::comparison::Compared;
use format::limits::Limits;
use line_bytes::element::{Relation, element_at};
use line_bytes::layout::FIRST_ELEMENT;
use ordering::decision::Decision;

// "each binding is an equality there, of identical terms": variable `v` and the term at `p`. A variable without a value (in a judgement, one above the highest of its equation) equals no instance. Terms whose symbols
// differ are not compared.
fn binding_holds(
    compared: &Compared,
    ready: &mut [u8; Limits::NODES],
    cells: &mut [u8],
    v: usize,
    p: usize,
) -> bool
    requires settled_cells { SettledCells compared.now.nodes.now compared.now.sizes.now compared.now.values.now ready.old cells.old }
    requires has_binding { HasBinding compared.now.nodes.now compared.now.sizes.now compared.now.values.now v p × (v < variable_count) }
    ensures variant { (ρ : Values) (value : ℕ → Term) → BindingTestable compared.now.nodes.now compared.now.sizes.now compared.now.values.now ρ value v p → (result ≡ true) ↔ (ρ v ≡ value p) }
    ensures settled_cells_2 { SettledCells compared.now.nodes.now compared.now.sizes.now compared.now.values.now ready.new cells.new }
{
    let node = usize::from(compared.values[v]);
    if node < Limits::SUBJECT {
        return false;
    }
    let s = resolve(compared.nodes, compared.values, p);
    if compared.nodes[s] != compared.nodes[node] {
        return false;
    }
    matches!(compare(compared, ready, cells, s, node), Decision::Equal)
}

// "each inequality is true by L1 to L3": the terms at `p` and `q`, of which one is a term of the subject. The comparison takes that one as its second. It is not made where
// symbols and sizes tell: a constant exceeds no term unless the term's symbol is smaller, and is exceeded by every term whose symbol is greater.
fn inequality_holds(
    compared: &Compared,
    ready: &mut [u8; Limits::NODES],
    cells: &mut [u8],
    p: usize,
    q: usize,
) -> bool
    requires settled_cells { SettledCells compared.now.nodes.now compared.now.sizes.now compared.now.values.now ready.old cells.old }
    requires has_inequality { HasInequality compared.now.nodes.now compared.now.sizes.now compared.now.values.now p q }
    ensures variant { (ρ : Values) (value : ℕ → Term) → ElementTestable compared.now.nodes.now compared.now.sizes.now compared.now.values.now ρ value (greater p q) → (result ≡ true) ↔ (value p ≻ value q) }
    ensures settled_cells_2 { SettledCells compared.now.nodes.now compared.now.sizes.now compared.now.values.now ready.new cells.new }
{
    let s = resolve(compared.nodes, compared.values, p);
    let t = resolve(compared.nodes, compared.values, q);
    if compared.sizes[s] == 1 && compared.nodes[s] <= compared.nodes[t] {
        return false;
    }
    if compared.sizes[t] == 1 && compared.nodes[t] < compared.nodes[s] {
        return true;
    }
    if t < Limits::SUBJECT {
        return matches!(compare(compared, ready, cells, t, s), Decision::Smaller(_));
    }
    matches!(compare(compared, ready, cells, s, t), Decision::Greater(_))
}

// Whether every binding of the line at `at` holds.
fn bindings_hold(
    table: &[u8],
    at: usize,
    compared: &Compared,
    ready: &mut [u8; Limits::NODES],
    cells: &mut [u8],
) -> bool
    requires settled_cells { SettledCells compared.now.nodes.now compared.now.sizes.now compared.now.values.now ready.old cells.old }
    requires has_bindings { HasBindings compared.now.nodes.now compared.now.sizes.now compared.now.values.now table.now at }
    ensures variant { (ρ : Values) (value : ℕ → Term) (θ : Bindings) → BindingsAre compared.now.nodes.now compared.now.sizes.now compared.now.values.now ρ value table.now at θ → (result ≡ true) ↔ BindingsHold ρ value 0 θ }
    ensures settled_cells_2 { SettledCells compared.now.nodes.now compared.now.sizes.now compared.now.values.now ready.new cells.new }
{
    for v in 0..Limits::VARIABLES {
        let p = table[at + v];
        if p < Limits::NO_POSITION && !binding_holds(compared, ready, cells, v, usize::from(p)) {
            return false;
        }
    }
    true
}

// Whether every inequality of the pairs from `from` to `end` holds.
fn elements_hold(
    table: &[u8],
    from: usize,
    end: usize,
    compared: &Compared,
    ready: &mut [u8; Limits::NODES],
    cells: &mut [u8],
) -> bool
    requires settled_cells { SettledCells compared.now.nodes.now compared.now.sizes.now compared.now.values.now ready.old cells.old }
    requires has_elements { HasElements compared.now.nodes.now compared.now.sizes.now compared.now.values.now table.now from end }
    ensures variant { (ρ : Values) (value : ℕ → Term) (es : List LineElement) → ElementsAre compared.now.nodes.now compared.now.sizes.now compared.now.values.now ρ value table.now from end es → (result ≡ true) ↔ ElementsHold ρ value es }
    ensures settled_cells_2 { SettledCells compared.now.nodes.now compared.now.sizes.now compared.now.values.now ready.new cells.new }
{
    for i in (from..end).step_by(2) {
        let Relation::Greater(p, q) = element_at(table, i).relation else {
            return false;
        };
        if !inequality_holds(compared, ready, cells, usize::from(p), usize::from(q)) {
            return false;
        }
    }
    true
}

// "A line holds at ground values exactly if each binding is an equality there, of identical terms, and each inequality is true by L1 to L3." The line from `at` to
// `end`.
fn line_holds(
    table: &[u8],
    at: usize,
    end: usize,
    compared: &Compared,
    ready: &mut [u8; Limits::NODES],
    cells: &mut [u8],
) -> bool
    requires settled_cells { SettledCells compared.now.nodes.now compared.now.sizes.now compared.now.values.now ready.old cells.old }
    requires has_line { HasLine compared.now.nodes.now compared.now.sizes.now compared.now.values.now table.now at end }
    ensures variant { (ρ : Values) (value : ℕ → Term) (l : Line) → LineIs compared.now.nodes.now compared.now.sizes.now compared.now.values.now ρ value table.now at end l → (result ≡ true) ↔ LineHolds ρ value l }
    ensures settled_cells_2 { SettledCells compared.now.nodes.now compared.now.sizes.now compared.now.values.now ready.new cells.new }
{
    bindings_hold(table, at, compared, ready, cells)
        && elements_hold(table, at + FIRST_ELEMENT, end, compared, ready, cells)
}

// The first of the kept lines that holds, counted from 1. Compiled into its callers, which have the parts of `compared` at hand: a run tests lines at each match.
#[inline(always)]
pub fn first_holding(
    table: &[u8],
    lines: KeptLines,
    compared: &Compared,
    ready: &mut [u8; Limits::NODES],
    cells: &mut [u8],
) -> Option<usize>
    requires settled_cells { SettledCells compared.now.nodes.now compared.now.sizes.now compared.now.values.now ready.old cells.old }
    requires has_lines { HasLines compared.now.nodes.now compared.now.sizes.now compared.now.values.now table.now lines }
    ensures value { (ρ : Values) (value : ℕ → Term) (ls : List Line) → LinesAre compared.now.nodes.now compared.now.sizes.now compared.now.values.now ρ value table.now lines ls → LineTold result (first_holding ρ value ls) }
    ensures settled_cells_2 { SettledCells compared.now.nodes.now compared.now.sizes.now compared.now.values.now ready.new cells.new }
{
    let mut at = lines.from;
    let mut line = 1;
    while at < lines.end {
        let next = at + trimmed_length(table, at);
        if line_holds(table, at, next, compared, ready, cells) {
            return Some(line);
        }
        at = next;
        line += 1;
    }
    None
}
