// Solve and always from an accepted sheet to their answer: "with the same lent buffers and order of refusals" (document 02, W6).
ghost use Rattle.std.specs.Prelude.{◌≡◌, ℕ, List, true, ◌≤◌, ◌<◌, length};
ghost use Rattle.std.proofs.Math.Option.{some};
ghost use Rattle.format.specs.Limits.{max_equations, table_bytes, scratch_bytes};
ghost use Rattle.terms.specs.Equation.{Equation, direction_of};
ghost use Rattle.terms.specs.declared.direction.Direction.{Direction};
ghost use Rattle.reading.specs.ForContracts.Seek.{Accepts};
ghost use Rattle.outcomes.specs.Asked.{Directed, asked, direction_asked};
ghost use Rattle.outcomes.specs.Outcome.{TableOutcome, directed_answer};
ghost use Rattle.solve_equation.specs.ForContracts.Equation.{EquationIs, HasEquation};

use format::limits::Limits;
use format::refusal::Refusal;
use outcomes::number::refusal_number;
use reading::seek::equation_at;
use scanning::known::Known;
use terms::direction::Direction;

// A call that asks for an equation in a direction, by what it does on the equation's bytes.
pub trait DirectedCall {
    // What the call gives, of equation number, table and scratch, and what is asked.
    ghost directed: { ℕ → List ℕ → List ℕ → Directed → TableOutcome };

    fn on_bytes(
        bytes: &[u8],
        arities: &[u8],
        equation: usize,
        direction: Direction,
        table: &mut [u8],
        scratch: &mut [u8],
    ) -> u64
        requires has_equation { HasEquation bytes.now arities.now × (equation < max_equations) }
        requires table_bytes_in_bounds { (table_bytes ≤ length table.old) × (scratch_bytes ≤ length scratch.old) }
        ensures { (e : Equation) → EquationIs bytes.now arities.now e → directed equation table.old scratch.old (record { equation = e; direction = direction }) ≡ record { returned = result; table = table.new; scratch = scratch.new } };
}

// The call on an accepted sheet that has the equation.
fn direction_found<C: DirectedCall>(
    sheet: &[u8],
    known: Known,
    equation: usize,
    direction: Direction,
    table: &mut [u8],
    scratch: &mut [u8],
) -> u64
    requires accepts { Accepts sheet.now known × (equation < known.equations) }
    requires table_bytes_in_bounds { (table_bytes ≤ length table.old) × (scratch_bytes ≤ length scratch.old) }
    ensures { (n : ℕ) → direction_of n ≡ some direction → directed_answer (C.directed equation table.old scratch.old) table.old scratch.old (asked true sheet.now (direction_asked equation n)) ≡ record { returned = result; table = table.new; scratch = scratch.new } }
{
    let mut bytes = [0u8; Limits::POSITIONS];
    let n = equation_at(sheet, known, equation, &mut bytes);
    C::on_bytes(
        &bytes[..n],
        known.symbol_arities(),
        equation,
        direction,
        table,
        scratch,
    )
}

// The call on an accepted sheet.
pub fn direction_named<C: DirectedCall>(
    sheet: &[u8],
    known: Known,
    equation: u64,
    direction: u64,
    table: &mut [u8],
    scratch: &mut [u8],
) -> u64
    requires accepts { Accepts sheet.now known }
    requires table_bytes_in_bounds { (table_bytes ≤ length table.old) × (scratch_bytes ≤ length scratch.old) }
    ensures { directed_answer (C.directed equation table.old scratch.old) table.old scratch.old (asked true sheet.now (direction_asked equation direction)) ≡ record { returned = result; table = table.new; scratch = scratch.new } }
{
    if known.equations as u64 <= equation {
        return refusal_number(Refusal::AbsentArgument, 0);
    }
    let Some(direction) = Direction::from_number(direction) else {
        return refusal_number(Refusal::AbsentArgument, 0);
    };
    direction_found::<C>(sheet, known, equation as usize, direction, table, scratch)
}
