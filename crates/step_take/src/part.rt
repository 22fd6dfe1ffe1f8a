// A part of the subject replaced by the instance of a side.
ghost use Rattle.std.specs.Prelude.{◌≡◌, List, ℕ, ◌≤◌, length};
ghost use Rattle.format.specs.Buffer.{written};
ghost use Rattle.terms.specs.Term.{Term, Values, size, inst};
ghost use Rattle.terms.specs.Position.{replace};
ghost use Rattle.terms.specs.Prefix.{prefix};
ghost use Rattle.step_take.specs.ForContracts.Replacing.{ReplacementIs, HasReplacement, ReplacedAs};

use crate::instance::{instance_size, put_instance};
use format::copy::copy_front;
use format::limits::Limits;
use terms::arguments::Arguments;
use terms::measure::measure;

// The subject with the side's instance in the place of the part at `node`, to the front of `res`, which has room for it.
fn put_result(
    bytes: &[u8],
    side: Arguments,
    nodes: &[u8],
    sizes: &[u8],
    values: &[u8],
    node: usize,
    n: usize,
    res: &mut [u8],
)
    requires { (arities : List ℕ) × (subject : Term) × (t : Term) × (ρ : Values) × (p : ℕ) × ReplacementIs bytes.now side arities nodes.now sizes.now values.now node n subject t ρ p × (size (replace subject p (inst ρ t)) ≤ length res.old) }
    ensures { (arities : List ℕ) (subject t : Term) (ρ : Values) (p : ℕ) → ReplacementIs bytes.now side arities nodes.now sizes.now values.now node n subject t ρ p → res.new ≡ written (prefix (replace subject p (inst ρ t))) res.old }
{
    let p = node - Limits::POSITIONS;
    copy_front(&nodes[Limits::POSITIONS..], res, p);
    let new = put_instance(bytes, side, nodes, sizes, values, &mut res[p..]);
    let old = usize::from(sizes[node]);
    copy_front(&nodes[node + old..], &mut res[p + new..], n - p - old);
}

// Replaces the part at `node` of a subject of `n` nodes by the side's instance, and tells how many nodes the result has: none if more than a task may have, which leaves the
// subject as it was.
pub fn replace_part(
    bytes: &[u8],
    side: Arguments,
    arities: &[u8],
    nodes: &mut [u8],
    sizes: &mut [u8],
    values: &[u8],
    node: usize,
    n: usize,
) -> Option<usize>
    requires { HasReplacement bytes.now side arities.now nodes.old sizes.old values.now node n }
    ensures { (subject t : Term) (ρ : Values) (p : ℕ) → ReplacementIs bytes.now side arities.now nodes.old sizes.old values.now node n subject t ρ p → ReplacedAs arities.now nodes.old sizes.old nodes.new sizes.new (replace subject p (inst ρ t)) result }
{
    let old = usize::from(sizes[node]);
    let new = instance_size(bytes, side, nodes, sizes, values);
    let size = n - old + new;
    if Limits::TASK_NODES < size {
        return None;
    }
    let mut result = [0u8; Limits::TASK_NODES];
    put_result(bytes, side, nodes, sizes, values, node, n, &mut result);
    copy_front(&result, &mut nodes[Limits::POSITIONS..], size);
    measure(
        nodes,
        arities,
        sizes,
        Limits::POSITIONS,
        Limits::POSITIONS + size,
    );
    Some(size)
}
