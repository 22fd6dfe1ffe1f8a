// More variables change no listing of a text that does not use them. The definitions and the theorem stand in specs/.
#![tactic(auto)]
