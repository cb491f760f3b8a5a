// No code: laws on the definitions of `rules` that the proofs of code and of theorems cite, on lists, floats, refusals, contours, layers and paths.
#![tactic(auto)]
