// No code: the laws of lengths (document 02, ticket 4), over the definitions of `rules` and `statement`, stand in specs/.
#![tactic(auto)]
