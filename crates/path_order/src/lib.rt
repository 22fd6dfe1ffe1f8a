// The lexicographic path ordering, as document 01 defines it. It stands in specs/, its laws in proofs/.
#![tactic(auto)]
