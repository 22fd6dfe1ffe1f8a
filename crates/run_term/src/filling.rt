// The filling (document 02, W5): "the lowest constant of the sheet", which stands behind the subject's nodes.
ghost use Rattle.std.specs.Prelude.{◌≡◌, ℕ, ◌≤◌, length};
ghost use Rattle.format.specs.Limits.{max_symbols, node_count};
ghost use Rattle.terms.specs.Term.{Term, nil, cons};
ghost use Rattle.terms.specs.Filling.{lowest_constant};
ghost use Rattle.terms.specs.ForContracts.Stored.{SubjectIs};
ghost use Rattle.reading.specs.ForContracts.Loading.{Loaded};

use format::limits::Limits;

// The lowest-numbered symbol of arity 0.
fn lowest_constant(arities: &[u8]) -> usize
    ensures { result ≡ lowest_constant arities.now }
{
    arities
        .iter()
        .position(|a| *a == 0)
        .unwrap_or(arities.len())
}

// A term that is loaded becomes the subject: the filling is put behind it.
pub fn put_filling(arities: &[u8], nodes: &mut [u8], sizes: &mut [u8])
    requires { (length arities.now ≤ max_symbols) × (length nodes.old ≡ node_count) × (length sizes.old ≡ node_count) }
    ensures { (s : Term) (n : ℕ) → Loaded arities.now nodes.old sizes.old (cons s nil) n → SubjectIs nodes.new sizes.new arities.now s }
{
    let constant = lowest_constant(arities);
    nodes[Limits::FILLING_NODE] = constant as u8;
    sizes[Limits::FILLING_NODE] = 1;
}
