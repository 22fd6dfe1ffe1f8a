// Solve: the lines and the turns of one direction of an equation, and its table.
ghost use Rattle.outcomes.specs.Outcome.{solve_directed};

use crate::direction::DirectedCall;
use format::limits::Limits;
use outcomes::buffer::fill;
use outcomes::number::{fields_number, refusal_number};
use solve_equation::solve::solve_equation;
use terms::direction::Direction;

#[derive(Clone, Copy)]
pub struct Solve;

impl DirectedCall for Solve {
    ghost directed = { solve_directed };

    fn on_bytes(
        bytes: &[u8],
        arities: &[u8],
        equation: usize,
        direction: Direction,
        table: &mut [u8],
        scratch: &mut [u8],
    ) -> u64 {
        let solved = solve_equation(bytes, arities, direction, table, scratch);
        fill(scratch, Limits::SCRATCH, 0);
        match solved {
            Ok(walk) => fields_number(walk.lines as u16, walk.turns, 0),
            Err(why) => {
                fill(table, Limits::TABLE, Limits::NO_POSITION);
                refusal_number(why, equation + Limits::FIRST_EQUATION_LINE)
            }
        }
    }
}
