// Unification, left argument first. Bindings are changed in place: where there is a unifier, they are those that give it at the return.
ghost use Rattle.std.specs.Prelude.{◌≡◌, ◌≤◌, ◌<◌, length, get_or, IsSome};
ghost use Rattle.std.proofs.Math.Option.{none, some};
ghost use Rattle.std.proofs.Math.Decide.{ℕ_discrete, dec_lt};
ghost use Rattle.format.specs.Limits.{first_variable, variable_count, no_position};
ghost use Rattle.solving.specs.Line.{lookup};
ghost use Rattle.solving.specs.Walk.{enough, occurs, bind_unless, unify_variables};
ghost use Rattle.bindings.specs.ForContracts.PrefixForm.{view_of};
ghost use Rattle.bindings.specs.ForContracts.Bindings.{bindings_of, Readable};
ghost use Rattle.bindings.specs.ForContracts.Sets.{HasVariables};
ghost use Rattle.unifying.specs.ForContracts.Links.{Linked};
ghost use Rattle.unifying.specs.ForContracts.Unify.{answered, FreeAt, HasRows, BindsTo, UnifiesSymbols, UnifiesTo, UnifiesRows};

use crate::links::linked;
use bindings::equation::EquationTerms;
use format::limits::Limits;
use terms::arguments::{Arguments, arguments_of, other_arguments};

// "Two unbound variables: bind the smaller number to the other's position." `v` stands at `p`, `w` at `q`.
#[tactic(auto, using(crate::specs::Theory::Unify::variables_same, crate::specs::Theory::Unify::variables_less, crate::specs::Theory::Unify::variables_more))]
fn bind_variables(bindings: &mut [u8], v: usize, w: usize, p: usize, q: usize)
    requires { (v < length bindings.old) × (w < length bindings.old) × (p < no_position) × (q < no_position) }
    ensures { unify_variables (bindings_of bindings.old) v w p q (ℕ_discrete v w) (dec_lt v w) ≡ some (bindings_of bindings.new) }
{
    if v == w {
        return;
    }
    if v < w {
        bindings[v] = q as u8;
    } else {
        bindings[w] = p as u8;
    }
}

// "Variable and term: bind to the term's position unless it occurs there."
fn bind_term(equation: &EquationTerms, bindings: &mut [u8], v: usize, p: usize) -> Option<()>
    requires readable { Readable equation.now.nodes.now equation.now.sizes.now bindings.old × HasVariables equation.now.nodes.now equation.now.sizes.now equation.now.variables.now × (p < length equation.now.nodes.now) }
    requires v_lt_variable_count { (v < variable_count) × (lookup (bindings_of bindings.old) v ≡ none) }
    ensures { bind_unless (occurs enough (view_of equation.now.nodes.now equation.now.sizes.now) enough.occurs_depth (bindings_of bindings.old) v p) (bindings_of bindings.old) v p ≡ answered result (bindings_of bindings.new) }
{
    if equation.occurs_at(bindings, v, p) {
        return None;
    }
    bindings[v] = p as u8;
    Some(())
}

// Binds a variable at one of two positions that are reached.
fn bind_reached(equation: &EquationTerms, bindings: &mut [u8], s: usize, t: usize) -> Option<()>
    requires readable { Readable equation.now.nodes.now equation.now.sizes.now bindings.old × HasVariables equation.now.nodes.now equation.now.sizes.now equation.now.variables.now }
    requires free_at { FreeAt equation.now.nodes.now equation.now.sizes.now bindings.old s × FreeAt equation.now.nodes.now equation.now.sizes.now bindings.old t }
    requires first_variable_bound { get_or equation.now.nodes.now s 0 < first_variable → first_variable ≤ get_or equation.now.nodes.now t 0 }
    ensures { BindsTo equation.now.nodes.now equation.now.sizes.now (bindings_of bindings.old) s t result (bindings_of bindings.new) }
{
    let f = equation.nodes[s];
    let g = equation.nodes[t];
    if f < Limits::FIRST_VARIABLE {
        return bind_term(
            equation,
            bindings,
            usize::from(g - Limits::FIRST_VARIABLE),
            s,
        );
    }
    if g < Limits::FIRST_VARIABLE {
        return bind_term(
            equation,
            bindings,
            usize::from(f - Limits::FIRST_VARIABLE),
            t,
        );
    }
    bind_variables(
        bindings,
        usize::from(f - Limits::FIRST_VARIABLE),
        usize::from(g - Limits::FIRST_VARIABLE),
        s,
        t,
    );
    Some(())
}

// Unifies the terms at two positions. No descent is deeper than there are positions, so that `depth` does not run out.
// Terms that were unified are linked, and not gone into again: bindings that double terms would make it long.
#[cycle(unification)]
pub fn unify_terms(
    equation: &EquationTerms,
    bindings: &mut [u8],
    links: &mut [u8],
    p: usize,
    q: usize,
    depth: usize,
) -> Option<()>
    requires readable { Readable equation.now.nodes.now equation.now.sizes.now bindings.old × HasVariables equation.now.nodes.now equation.now.sizes.now equation.now.variables.now }
    requires p_in_bounds { (p < length equation.now.nodes.now) × (q < length equation.now.nodes.now) }
    requires linked { Linked equation.now.nodes.now equation.now.sizes.now bindings.old links.old }
    ensures unifies_to { UnifiesTo equation.now.nodes.now equation.now.sizes.now depth (bindings_of bindings.old) p q result (bindings_of bindings.new) }
    ensures linked_2 { IsSome result → Linked equation.now.nodes.now equation.now.sizes.now bindings.new links.new }
{
    if depth == 0 {
        return None;
    }
    let s = equation.reached(bindings, p);
    let t = equation.reached(bindings, q);
    if s == t {
        return Some(());
    }
    if equation.nodes[s] < Limits::FIRST_VARIABLE && equation.nodes[t] < Limits::FIRST_VARIABLE {
        let a = linked(links, s);
        let b = linked(links, t);
        if a == b {
            return Some(());
        }
        unify_symbols(equation, bindings, links, s, t, depth - 1)?;
        links[a] = b as u8;
        links[s] = b as u8;
        return Some(());
    }
    bind_reached(equation, bindings, s, t)
}

// Unifies two terms that are no variables, their arguments at most `depth` deep.
#[cycle(unification)]
fn unify_symbols(
    equation: &EquationTerms,
    bindings: &mut [u8],
    links: &mut [u8],
    s: usize,
    t: usize,
    depth: usize,
) -> Option<()>
    requires readable { Readable equation.now.nodes.now equation.now.sizes.now bindings.old × HasVariables equation.now.nodes.now equation.now.sizes.now equation.now.variables.now }
    requires s_in_bounds { (s < length equation.now.nodes.now) × (get_or equation.now.nodes.now s 0 < first_variable) }
    requires t_in_bounds { (t < length equation.now.nodes.now) × (get_or equation.now.nodes.now t 0 < first_variable) }
    requires linked { Linked equation.now.nodes.now equation.now.sizes.now bindings.old links.old }
    ensures unifies_symbols { UnifiesSymbols equation.now.nodes.now equation.now.sizes.now depth (bindings_of bindings.old) s t result (bindings_of bindings.new) }
    ensures linked_2 { IsSome result → Linked equation.now.nodes.now equation.now.sizes.now bindings.new links.new }
{
    if equation.nodes[s] != equation.nodes[t] {
        return None;
    }
    let left = arguments_of(equation.sizes, s);
    let right = arguments_of(equation.sizes, t);
    unify_rows(equation, bindings, links, left, right, depth)
}

// Unifies the terms of two rows, one by one.
#[cycle(unification)]
fn unify_rows(
    equation: &EquationTerms,
    bindings: &mut [u8],
    links: &mut [u8],
    left: Arguments,
    right: Arguments,
    depth: usize,
) -> Option<()>
    requires readable { Readable equation.now.nodes.now equation.now.sizes.now bindings.old × HasVariables equation.now.nodes.now equation.now.sizes.now equation.now.variables.now }
    requires has_rows { HasRows equation.now.nodes.now equation.now.sizes.now left right }
    requires linked { Linked equation.now.nodes.now equation.now.sizes.now bindings.old links.old }
    ensures unifies_rows { UnifiesRows equation.now.nodes.now equation.now.sizes.now depth (bindings_of bindings.old) left right result (bindings_of bindings.new) }
    ensures linked_2 { IsSome result → Linked equation.now.nodes.now equation.now.sizes.now bindings.new links.new }
{
    if left.from < left.end {
        if right.from < right.end {
            unify_terms(equation, bindings, links, left.from, right.from, depth)?;
            let others = other_arguments(equation.sizes, left);
            let opposite = other_arguments(equation.sizes, right);
            return unify_rows(equation, bindings, links, others, opposite, depth);
        }
        return None;
    }
    if right.from < right.end {
        return None;
    }
    Some(())
}
