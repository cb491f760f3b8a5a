// No code: what the documents say of paths (the path statement, how near a jump is, and the check of a path), over the definitions of `rules`, stands in specs/.
#![tactic(auto)]
