// No code: the proof of how near a jump is (document 02, ticket 8), over the definitions of `rules`, stands in specs/.
#![tactic(auto)]
