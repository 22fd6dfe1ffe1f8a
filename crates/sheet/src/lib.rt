// What every text earns: a refusal with its line, or the sheet that it says. The definitions and their laws stand in specs/.
#![tactic(auto)]
