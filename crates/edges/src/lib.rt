// Cases at the edges of document 01, checked by computation. They stand in specs/.
#![tactic(auto)]
