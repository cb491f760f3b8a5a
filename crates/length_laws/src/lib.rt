// No code: a pair's length is at most a number of 32 bits, the same both ways, and adds up.
#![tactic(auto)]
