// The instance of a side at the values of its variables.
ghost use Rattle.std.specs.Prelude.{◌≡◌, List, ℕ, ◌+◌, ◌*◌, ◌≤◌, length};
ghost use Rattle.format.specs.Buffer.{written};
ghost use Rattle.format.specs.Limits.{position_count, max_task_nodes};
ghost use Rattle.terms.specs.Term.{Term, Values, size, inst};
ghost use Rattle.terms.specs.Prefix.{prefix};
ghost use Rattle.step_take.specs.ForContracts.Replacing.{InstanceIs, HasInstance};

use format::copy::copy_front;
use format::limits::Limits;
use terms::arguments::Arguments;

// The number of nodes of the side's instance: for each node of the side at most as many as stand behind the equation's, which are the subject's and the filling's.
pub fn instance_size(
    bytes: &[u8],
    side: Arguments,
    nodes: &[u8],
    sizes: &[u8],
    values: &[u8],
) -> usize
    requires { HasInstance bytes.now side nodes.now sizes.now values.now }
    ensures by_index { (arities : List ℕ) (t : Term) (ρ : Values) → InstanceIs bytes.now side nodes.now sizes.now values.now arities t ρ → result ≡ size (inst ρ t) }
    ensures upper_bound { result ≤ (max_task_nodes + 1) * position_count }
{
    let mut size = 0;
    for i in side.from..side.end {
        let byte = bytes[i];
        if byte < Limits::FIRST_VARIABLE {
            size += 1;
        } else {
            let node = usize::from(values[usize::from(byte - Limits::FIRST_VARIABLE)]);
            size += usize::from(sizes[node]);
        }
    }
    size
}

// The side's instance, to the front of `out`, which has room for it. The answer is the number of its nodes.
pub fn put_instance(
    bytes: &[u8],
    side: Arguments,
    nodes: &[u8],
    sizes: &[u8],
    values: &[u8],
    out: &mut [u8],
) -> usize
    requires { (arities : List ℕ) × (t : Term) × (ρ : Values) × InstanceIs bytes.now side nodes.now sizes.now values.now arities t ρ × (size (inst ρ t) ≤ length out.old) }
    ensures { (arities : List ℕ) (t : Term) (ρ : Values) → InstanceIs bytes.now side nodes.now sizes.now values.now arities t ρ → (result ≡ size (inst ρ t)) × (out.new ≡ written (prefix (inst ρ t)) out.old) }
{
    let mut at = 0;
    for i in side.from..side.end {
        let byte = bytes[i];
        if byte < Limits::FIRST_VARIABLE {
            out[at] = byte;
            at += 1;
        } else {
            let node = usize::from(values[usize::from(byte - Limits::FIRST_VARIABLE)]);
            let size = usize::from(sizes[node]);
            copy_front(&nodes[node..], &mut out[at..], size);
            at += size;
        }
    }
    at
}
