// A line's bindings with those of a unifier added, beside the line's own.
ghost use Rattle.std.specs.Prelude.{◌<◌, length};
ghost use Rattle.bindings.specs.ForContracts.Bindings.{Readable};
ghost use Rattle.bindings.specs.ForContracts.Sets.{HasVariables};
ghost use Rattle.unifying.specs.ForContracts.Unifier.{Unifies};

use crate::unify::unify_terms;
use bindings::equation::EquationTerms;
use format::limits::Limits;

// Whether there is a unifier, and the bindings that give it: the form that document 01 names, an answer, and the bindings in a struct beside it.
#[derive(Clone, Copy)]
pub struct Unifier {
    pub answer: Option<()>,
    pub bindings: [u8; Limits::VARIABLES],
}

// One more than there are positions.
const DEPTH: usize = Limits::POSITIONS + 1;

// Unifies the terms at two positions. The bindings of the line stay as they are.
pub fn unify_positions(equation: &EquationTerms, bindings: &[u8], p: usize, q: usize) -> Unifier
    requires readable { Readable equation.now.nodes.now equation.now.sizes.now bindings.now × HasVariables equation.now.nodes.now equation.now.sizes.now equation.now.variables.now }
    requires p_in_bounds { (p < length equation.now.nodes.now) × (q < length equation.now.nodes.now) }
    ensures { Unifies equation.now.nodes.now equation.now.sizes.now bindings.now p q result }
{
    let mut own = [0u8; Limits::VARIABLES];
    own.copy_from_slice(bindings);
    let mut links = [Limits::NO_POSITION; Limits::POSITIONS];
    let answer = unify_terms(equation, &mut own, &mut links, p, q, DEPTH);
    Unifier {
        answer,
        bindings: own,
    }
}
