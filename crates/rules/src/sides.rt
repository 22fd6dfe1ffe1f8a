// Where the sides of a rule stand in its equation's row. Rule 2 · e is direction 00 of equation e, and the next is its direction 01.
ghost use Rattle.std.specs.Prelude.{List, ℕ};
ghost use Rattle.terms.specs.Equation.{Equation, source, target};
ghost use Rattle.terms.specs.declared.direction.Direction.{Direction};
ghost use Rattle.rules.specs.ForContracts.Rows.{HasRule, RuleIs, SideIs};

use format::limits::Limits;
use terms::arguments::Arguments;

#[derive(Clone, Copy)]
pub struct RuleSides {
    pub source: Arguments,
    pub target: Arguments,
}

pub fn sides_of(lengths: &[u8], rule: usize) -> RuleSides
    requires { HasRule lengths.now rule }
    ensures { (equations arities : List ℕ) (i : ℕ) (e : Equation) (d : Direction) → RuleIs equations lengths.now arities rule i e d → SideIs equations lengths.now arities result.source (source e d) × SideIs equations lengths.now arities result.target (target e d) }
{
    let row = rule / 2 * Limits::POSITIONS;
    let right = row + usize::from(lengths[row]);
    let first = Arguments {
        from: row,
        end: right,
    };
    let second = Arguments {
        from: right,
        end: right + usize::from(lengths[right]),
    };
    if rule % 2 == 0 {
        return RuleSides {
            source: first,
            target: second,
        };
    }
    RuleSides {
        source: second,
        target: first,
    }
}
