// No code: the laws of the division by points and of the check of a path (document 02, ticket 7), over the definitions of `rules`, stand in specs/.
#![tactic(auto)]
