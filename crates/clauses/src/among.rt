// Whether a term stands among others, as far as the bytes tell.
ghost use Rattle.std.specs.Prelude.{◌≡◌, length};
ghost use Rattle.format.specs.Limits.{node_count};
ghost use Rattle.clauses.specs.ForContracts.Among.{HasTwoTerms, HasRowAndTerm, TellsEqual, TellsAmong};

use format::same::same_bytes;
use terms::arguments::Arguments;

// The same nodes with the same sizes stand for the same term. Other nodes may do so too, where they are variables: then nothing is told.
fn same_nodes(nodes: &[u8], sizes: &[u8], i: usize, j: usize) -> bool
    requires { (length nodes.now ≡ node_count) × (length sizes.now ≡ node_count) × HasTwoTerms nodes.now sizes.now i j }
    ensures { TellsEqual nodes.now sizes.now i j result }
{
    let n = usize::from(sizes[i]);
    if n != usize::from(sizes[j]) {
        return false;
    }
    if !same_bytes(nodes, i, j, n) {
        return false;
    }
    same_bytes(sizes, i, j, n)
}

// Yes: the term at j is one of those in the row, whose bytes it has. No tells nothing.
pub fn among(nodes: &[u8], sizes: &[u8], row: Arguments, j: usize) -> bool
    requires { (length nodes.now ≡ node_count) × (length sizes.now ≡ node_count) × HasRowAndTerm nodes.now sizes.now row j }
    ensures { TellsAmong nodes.now sizes.now row j result }
{
    let end = row.end;
    let mut at = row.from;
    while at < end {
        if same_nodes(nodes, sizes, at, j) {
            return true;
        }
        at += usize::from(sizes[at]);
    }
    false
}
