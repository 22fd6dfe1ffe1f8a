// Walks at the limits of 40 elements, 255 lines and 10,000 turns, checked by computation. They stand in specs/.
#![tactic(auto)]
