// Always (document 02, W6): "says yes as soon as the whole table .. has a finished line with no binding and no element, else no when the walk ends".
ghost use Rattle.outcomes.specs.Outcome.{always_directed};

use crate::direction::DirectedCall;
use format::limits::Limits;
use outcomes::buffer::fill;
use outcomes::number::{fields_number, refusal_number};
use solve_equation::decide::decide_equation;
use terms::direction::Direction;

#[derive(Clone, Copy)]
pub struct Always;

impl DirectedCall for Always {
    ghost directed = { always_directed };

    fn on_bytes(
        bytes: &[u8],
        arities: &[u8],
        equation: usize,
        direction: Direction,
        table: &mut [u8],
        scratch: &mut [u8],
    ) -> u64 {
        let decided = decide_equation(bytes, arities, direction, scratch);
        fill(scratch, Limits::SCRATCH, 0);
        fill(table, Limits::TABLE, Limits::NO_POSITION);
        match decided {
            Ok(decision) => fields_number(u16::from(decision.yes), decision.turns, 0),
            Err(why) => refusal_number(why, equation + Limits::FIRST_EQUATION_LINE),
        }
    }
}
