// The match of a side of an equation with a part of the subject.
ghost use Rattle.std.specs.Prelude.{◌≡◌, List, ℕ, ◌<◌, length, get_or, replicate};
ghost use Rattle.std.proofs.Math.Option.{none};
ghost use Rattle.format.specs.Limits.{variable_count, filling_node};
ghost use Rattle.terms.specs.Term.{Term};
ghost use Rattle.terms.specs.ForContracts.Stored.{GroundStored};
ghost use Rattle.reducing.specs.Match.{Match, no_match, meet, match};
ghost use Rattle.step_match.specs.ForContracts.Matching.{HasGround, HasMatch, MatchIs, Matched, SidePart, HasSidePart};

use crate::same::same_terms;
use format::limits::Limits;
use terms::arguments::Arguments;

// No variable has met a term: each has the filling (document 02, W5), whose node stands behind the subject's.
fn forget(values: &mut [u8])
    requires { length values.old ≡ variable_count }
    ensures { values.new ≡ replicate variable_count filling_node }
{
    values.fill(Limits::FILLING_NODE as u8);
}

// Variable `v` meets the term at `node`: "a repeated variable meets identical terms".
fn meet(nodes: &[u8], sizes: &[u8], v: usize, node: usize, values: &mut [u8]) -> bool
    requires { HasGround nodes.now sizes.now node × HasMatch nodes.now sizes.now values.old × (v < variable_count) }
    ensures { (arities : List ℕ) (t : Term) (m : Match) → GroundStored nodes.now sizes.now arities node t → MatchIs nodes.now sizes.now arities m values.old → Matched nodes.now sizes.now arities (meet m v t (get_or m v none)) values.new result }
{
    let met = usize::from(values[v]);
    if met == Limits::FILLING_NODE {
        values[v] = node as u8;
        return true;
    }
    same_terms(nodes, sizes, met, node)
}

// Whether the side matches the term at `node`. If so, `values` has the node of the term that each variable met, and the filling's for those that met none.
// Compiled into its callers: a run matches a side at each node and rule, and a call there took a fifth of its time.
#[inline(always)]
pub fn match_side(
    bytes: &[u8],
    side: Arguments,
    nodes: &[u8],
    sizes: &[u8],
    node: usize,
    values: &mut [u8],
) -> bool
    requires { HasSidePart bytes.now side nodes.now sizes.now node × (length values.old ≡ variable_count) }
    ensures { (arities : List ℕ) (s t : Term) → SidePart bytes.now side nodes.now sizes.now node arities s t → Matched nodes.now sizes.now arities (match s t no_match) values.new result }
{
    forget(values);
    let mut at = node;
    for &byte in &bytes[side.from..side.end] {
        if byte < Limits::FIRST_VARIABLE {
            if byte != nodes[at] {
                return false;
            }
            at += 1;
        } else {
            let v = usize::from(byte - Limits::FIRST_VARIABLE);
            if !meet(nodes, sizes, v, at, values) {
                return false;
            }
            at += usize::from(sizes[at]);
        }
    }
    true
}
