// Terms seen through the bindings of a line, a byte for each variable.
ghost use Rattle.std.specs.Prelude.{◌≡◌, ◌<◌, length};
ghost use Rattle.solving.specs.Walk.{enough, reach};
ghost use Rattle.bindings.specs.ForContracts.PrefixForm.{view_of};
ghost use Rattle.bindings.specs.ForContracts.Bindings.{bindings_of, Readable};

use crate::equation::EquationTerms;
use format::limits::Limits;

impl EquationTerms<'_> {
    // The position reached from `p` through the bindings. A variable is bound to a term or to a higher variable.
    pub fn reached(&self, bindings: &[u8], p: usize) -> usize
        requires { Readable self.now.nodes.now self.now.sizes.now bindings.now × (p < length self.now.nodes.now) }
        ensures value { result ≡ reach enough (view_of self.now.nodes.now self.now.sizes.now) (bindings_of bindings.now) p }
        ensures upper_bound { result < length self.now.nodes.now }
    {
        let mut at = p;
        for _hop in 0..Limits::VARIABLES {
            let byte = self.nodes[at];
            if byte < Limits::FIRST_VARIABLE {
                return at;
            }
            let next = bindings[usize::from(byte - Limits::FIRST_VARIABLE)];
            if next == Limits::NO_POSITION {
                return at;
            }
            at = usize::from(next);
        }
        at
    }
}
