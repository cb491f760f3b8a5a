// No code: the proof of the path statement, over the definitions of `rules`, stands in specs/, and laws on definitions of this crate in proofs/.
#![tactic(auto)]
