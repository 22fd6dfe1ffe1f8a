// The occurs test, seen through the bindings of a line. Each variable is looked through once, so that no bindings make it long.
ghost use Rattle.std.specs.Prelude.{◌≡◌, ◌<◌, length};
ghost use Rattle.std.proofs.Math.Option.{none};
ghost use Rattle.format.specs.Limits.{variable_count};
ghost use Rattle.solving.specs.Line.{lookup};
ghost use Rattle.solving.specs.Walk.{enough, occurs};
ghost use Rattle.bindings.specs.ForContracts.PrefixForm.{view_of};
ghost use Rattle.bindings.specs.ForContracts.Bindings.{bindings_of, Readable};
ghost use Rattle.bindings.specs.ForContracts.Sets.{HasVariables};

use crate::equation::EquationTerms;
use crate::sets::{joined, lowest_beside, singleton};
use format::limits::Limits;

impl EquationTerms<'_> {
    // Whether the free variable `v` occurs in the term at `p`.
    #[tactic(auto, using(crate::proofs::Occurrence::lent_true, crate::proofs::Bits::joined_more))]
    pub fn occurs_at(&self, bindings: &[u8], v: usize, p: usize) -> bool
        requires readable { Readable self.now.nodes.now self.now.sizes.now bindings.now × HasVariables self.now.nodes.now self.now.sizes.now self.now.variables.now }
        requires p_in_bounds { (p < length self.now.nodes.now) × (v < variable_count) × (lookup (bindings_of bindings.now) v ≡ none) }
        ensures { result ≡ occurs enough (view_of self.now.nodes.now self.now.sizes.now) enough.occurs_depth (bindings_of bindings.now) v p }
    {
        // What was looked through is part of what was seen.
        let mut seen = self.variables[p];
        let mut through: u16 = 0;
        while seen != through {
            let w = lowest_beside(seen, through);
            if w == v {
                return true;
            }
            through = joined(through, singleton(w));
            let next = bindings[w];
            if next < Limits::NO_POSITION {
                seen = joined(seen, self.variables[usize::from(next)]);
            }
        }
        false
    }
}
