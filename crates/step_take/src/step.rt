// One step: the subject that it leaves, and its entry in the log.
ghost use Rattle.std.specs.Prelude.{◌≡◌, List, [], ◌∷◌, ◌++◌, ℕ, ◌+◌, ◌*◌, ◌/◌, ◌%◌, ◌≤◌, length};
ghost use Rattle.format.specs.Limits.{max_byte};
ghost use Rattle.format.specs.Buffer.{written};
ghost use Rattle.terms.specs.Term.{Term};
ghost use Rattle.terms.specs.Equation.{Equation};
ghost use Rattle.terms.specs.declared.direction.Direction.{Direction};
ghost use Rattle.reducing.specs.Run.{Step};
ghost use Rattle.step_take.specs.ForContracts.Replacing.{ReplacedAs};
ghost use Rattle.step_take.specs.ForContracts.Stepping.{StepIs, HasStep};

use crate::part::replace_part;
use format::limits::Limits;
use rules::rows::Rows;
use rules::sides::sides_of;
use step_match::side::match_side;

// Takes a step that is possible: the rule at `node` of a subject of `n` nodes.
pub fn take_step(
    rows: &Rows,
    rule: usize,
    arities: &[u8],
    nodes: &mut [u8],
    sizes: &mut [u8],
    node: usize,
    n: usize,
) -> Option<usize>
    requires { HasStep rows.now.equations.now rows.now.lengths.now rule arities.now nodes.old sizes.old node n }
    ensures { (i : ℕ) (e : Equation) (d : Direction) (subject : Term) (p : ℕ) (s : Step) → StepIs rows.now.equations.now rows.now.lengths.now rule arities.now nodes.old sizes.old node n i e d subject p s → ReplacedAs arities.now nodes.old sizes.old nodes.new sizes.new s.result result }
{
    let mut values = [0u8; Limits::VARIABLES];
    let sides = sides_of(rows.lengths, rule);
    // The search has matched it before.
    if !match_side(
        rows.equations,
        sides.source,
        nodes,
        sizes,
        node,
        &mut values,
    ) {
        return None;
    }
    replace_part(
        rows.equations,
        sides.target,
        arities,
        nodes,
        sizes,
        &values,
        node,
        n,
    )
}

// "The steps (equation, direction, position)": step number `steps`, counted from 0, is logged.
pub fn put_step(log: &mut [u8], steps: usize, rule: usize, position: usize)
    requires { (3 * steps + 3 ≤ length log.old) × (rule ≤ max_byte) × (position ≤ max_byte) }
    ensures { (front before : List ℕ) → length front ≡ 3 * steps → log.old ≡ written front before → log.new ≡ written (front ++ (rule / 2 ∷ rule % 2 ∷ position ∷ [])) before }
{
    let at = 3 * steps;
    log[at] = (rule / 2) as u8;
    log[at + 1] = (rule % 2) as u8;
    log[at + 2] = position as u8;
}
