// Whether two terms are identical.
ghost use Rattle.std.specs.Prelude.{◌≡◌, ◌↔◌, true, List, ℕ};
ghost use Rattle.terms.specs.Term.{Term};
ghost use Rattle.terms.specs.ForContracts.Stored.{GroundStored};
ghost use Rattle.step_match.specs.ForContracts.Matching.{HasGround};

// Whether the terms at the nodes `a` and `b` are identical.
pub fn same_terms(nodes: &[u8], sizes: &[u8], a: usize, b: usize) -> bool
    requires { HasGround nodes.now sizes.now a × HasGround nodes.now sizes.now b }
    ensures { (arities : List ℕ) (s t : Term) → GroundStored nodes.now sizes.now arities a s → GroundStored nodes.now sizes.now arities b t → (result ≡ true) ↔ (s ≡ t) }
{
    let n = usize::from(sizes[a]);
    if n != usize::from(sizes[b]) {
        return false;
    }
    nodes[a..a + n] == nodes[b..b + n]
}
