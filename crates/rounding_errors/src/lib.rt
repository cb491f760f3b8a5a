// No code: laws of rounding errors, and what they say of the grid, stand in specs/.
#![tactic(auto)]
