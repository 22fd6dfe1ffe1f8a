// The walk from its first turn to its end, or to the turn at which it stops.
ghost use Rattle.std.specs.Prelude.{◌≡◌, true};
ghost use Rattle.bindings.specs.ForContracts.Sets.{HasVariables};
ghost use Rattle.walking.specs.ForContracts.Walking.{Walking};
ghost use Rattle.stopping.specs.ForContracts.Ends.{NoneEmpty, WalkEnds};

use crate::empty::any_empty;
use bindings::equation::EquationTerms;
use format::limits::Limits;
use format::refusal::Refusal;
use walking::walk::Walk;

// Until no line is unfinished, or the walk is refused; where it `stops`, also until a turn makes a line without binding and element, which is then left among
// the unfinished ones. After a turn only its new lines are looked at: they stand from the new first place to the former first place.
// Solve and always share this loop, so that the turn is compiled into it: called from two places it would take twice the time.
pub fn go_on(
    walk: Walk,
    stops: bool,
    equation: &EquationTerms,
    memory: &mut [u8],
) -> Result<Walk, Refusal>
    requires walking { Walking equation.now.nodes.now equation.now.sizes.now memory.old walk × HasVariables equation.now.nodes.now equation.now.sizes.now equation.now.variables.now }
    requires none_empty { stops ≡ true → NoneEmpty equation.now.nodes.now equation.now.sizes.now walk }
    ensures { WalkEnds equation.now.nodes.now equation.now.sizes.now memory.new stops walk.source walk.target result }
{
    let mut cursor = walk;
    while cursor.top < Limits::LINES {
        let end = cursor.top + 1;
        cursor = cursor.turn(equation, memory)?;
        if stops && any_empty(memory, cursor.top, end) {
            return Ok(cursor);
        }
    }
    Ok(cursor)
}
