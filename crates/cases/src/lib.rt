// The cases P1 to P12 of document 01. They stand in specs/, with the lemma that checks them.
#![tactic(auto)]
