// Every chain ends: the walk without its limits, and the run without its limits. They stand in specs/.
#![tactic(auto)]
