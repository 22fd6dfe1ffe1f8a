// The number of nodes of the term that starts at each byte of terms in prefix form.
ghost use Rattle.std.specs.Prelude.{◌≡◌, ◌∷◌, ◌++◌, ◌≤◌, ◌<◌, length, get_or, take, drop};
ghost use Rattle.std.proofs.Math.Seq.{slice};
ghost use Rattle.format.specs.Limits.{node_count};
ghost use Rattle.terms.specs.ForContracts.Sizes.{Whole, Measurable, node_sizes};

use format::limits::Limits;

// The number of nodes of the first of whole terms, where `sizes` has those of the terms that start at each node behind the first. The first of these, `last`, was found
// just before: read back from memory it would be waited for.
fn first_size(nodes: &[u8], arities: &[u8], sizes: &[u8], last: u8) -> u8
    requires whole { Whole arities.now nodes.now }
    requires nodes_nonzero { (0 < length nodes.now) × (length nodes.now ≤ node_count) }
    requires sizes_value { (sizes.now ≡ node_sizes arities.now (drop 1 nodes.now)) × (last ≡ get_or sizes.now 0 0) }
    ensures { node_sizes arities.now nodes.now ≡ result ∷ sizes.now }
{
    let byte = nodes[0];
    if Limits::FIRST_VARIABLE <= byte {
        return 1;
    }
    let count = arities[usize::from(byte)];
    if count == 0 {
        return 1;
    }
    let mut next = usize::from(last);
    for k in 1..count {
        next += usize::from(sizes[next]);
    }
    (next + 1) as u8
}

// Fills in the sizes of the terms that start at the nodes from `from` to `end`, which are whole terms.
pub fn measure(nodes: &[u8], arities: &[u8], sizes: &mut [u8], from: usize, end: usize)
    requires { Measurable arities.now nodes.now sizes.old from end }
    ensures { sizes.new ≡ take from sizes.old ++ (node_sizes arities.now (slice from end nodes.now) ++ drop end sizes.old) }
{
    let mut size = 0;
    for i in (from..end).rev() {
        size = first_size(&nodes[i..end], arities, &sizes[i + 1..end], size);
        sizes[i] = size;
    }
}
