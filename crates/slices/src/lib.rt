// No code: laws on output slices, of what is written over their start, stand in specs/.
#![tactic(auto)]
