// The walk that solves s > t. The definitions and its theory stand in specs/.
#![tactic(auto)]
