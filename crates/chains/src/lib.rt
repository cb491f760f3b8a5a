// No code: laws on the best of a set of places, and on chains of places, stand in specs/.
#![tactic(auto)]
