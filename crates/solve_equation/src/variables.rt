// The variables of the term that starts at each node of terms in prefix form.
ghost use Rattle.std.specs.Prelude.{◌≡◌, ◌+◌, ◌<◌, length, get_or};
ghost use Rattle.bindings.specs.ForContracts.PrefixForm.{InPrefixForm};
ghost use Rattle.bindings.specs.ForContracts.Sets.{SetOf, VariablesFrom, HasVariables};

use bindings::sets::{joined, singleton};
use format::limits::Limits;

// The variables of the term at `p`, where `variables` has those of the terms behind that node.
fn variables_at(nodes: &[u8], sizes: &[u8], variables: &[u16], p: usize) -> u16
    requires in_prefix_form { InPrefixForm nodes.now sizes.now × (p < length nodes.now) }
    requires variables_from { VariablesFrom nodes.now sizes.now variables.now (p + 1) }
    ensures { SetOf nodes.now p (p + get_or sizes.now p 0) result }
{
    let byte = nodes[p];
    if Limits::FIRST_VARIABLE <= byte {
        return singleton(usize::from(byte - Limits::FIRST_VARIABLE));
    }
    let end = p + usize::from(sizes[p]);
    let mut set: u16 = 0;
    let mut k = p + 1;
    while k < end {
        set = joined(set, variables[k]);
        k += usize::from(sizes[k]);
    }
    set
}

// Fills in the variables of the terms at all nodes, the last one first.
pub fn collect_variables(nodes: &[u8], sizes: &[u8], variables: &mut [u16])
    requires { InPrefixForm nodes.now sizes.now × (length variables.old ≡ length nodes.now) }
    ensures { HasVariables nodes.now sizes.now variables.new }
{
    for p in (0..nodes.len()).rev() {
        let set = variables_at(nodes, sizes, variables, p);
        variables[p] = set;
    }
}
