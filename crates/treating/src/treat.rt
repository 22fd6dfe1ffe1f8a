// What an element asks for, seen through the bindings of its line.
ghost use Rattle.std.specs.Prelude.{◌≡◌, ◌<◌, length};
ghost use Rattle.solving.specs.Line.{greater};
ghost use Rattle.solving.specs.ForContracts.Within.{Within};
ghost use Rattle.bindings.specs.ForContracts.Bindings.{Readable};
ghost use Rattle.bindings.specs.ForContracts.Sets.{HasVariables};
ghost use Rattle.line_bytes.specs.ForContracts.Resting.{meaning};
ghost use Rattle.treating.specs.ForContracts.Treatment.{Treated};

use bindings::equation::EquationTerms;
use format::limits::Limits;
use line_bytes::element::{Element, Relation};

// The positions of an element's two sides, or of the terms reached from them.
#[derive(Clone, Copy)]
pub struct Sides {
    pub left: usize,
    pub right: usize,
}

// Nothing, the line deleted, the element deleted, two positions unified, or choices: an inequality's positions and those reached from them.
#[derive(Clone, Copy)]
pub enum Treatment {
    Reduced,
    DropLine,
    DropElement,
    Unify(Sides),
    Split(Sides, Sides),
}

fn element_sides(p: u8, q: u8) -> Sides
    ensures { result ≡ record { left = p; right = q } }
{
    Sides {
        left: usize::from(p),
        right: usize::from(q),
    }
}

// "Inequality l > r", by what l and r are.
fn inequality_treatment(equation: &EquationTerms, bindings: &[u8], sides: Sides) -> Treatment
    requires readable { Readable equation.now.nodes.now equation.now.sizes.now bindings.now × HasVariables equation.now.nodes.now equation.now.sizes.now equation.now.variables.now }
    requires left_in_bounds { (sides.left < length equation.now.nodes.now) × (sides.right < length equation.now.nodes.now) }
    ensures { Treated equation.now.nodes.now equation.now.sizes.now bindings.now (greater sides.left sides.right) result }
{
    let p = sides.left;
    let q = sides.right;
    let s = equation.reached(bindings, p);
    let t = equation.reached(bindings, q);
    let f = equation.nodes[s];
    if Limits::FIRST_VARIABLE <= f {
        if equation.occurs_at(bindings, usize::from(f - Limits::FIRST_VARIABLE), q) {
            return Treatment::DropLine;
        }
        return Treatment::Reduced;
    }
    let g = equation.nodes[t];
    if Limits::FIRST_VARIABLE <= g {
        if equation.occurs_at(bindings, usize::from(g - Limits::FIRST_VARIABLE), p) {
            return Treatment::DropElement;
        }
        return Treatment::Reduced;
    }
    let terms = Sides { left: s, right: t };
    Treatment::Split(sides, terms)
}

pub fn treatment_of(equation: &EquationTerms, bindings: &[u8], element: Element) -> Treatment
    requires readable { Readable equation.now.nodes.now equation.now.sizes.now bindings.now × HasVariables equation.now.nodes.now equation.now.sizes.now equation.now.variables.now }
    requires within { Within (length equation.now.nodes.now) (meaning element) }
    ensures { Treated equation.now.nodes.now equation.now.sizes.now bindings.now (meaning element) result }
{
    match element.relation {
        Relation::Greater(p, q) => inequality_treatment(equation, bindings, element_sides(p, q)),
        Relation::Equal(p, q) => Treatment::Unify(element_sides(p, q)),
    }
}
