// No code: what each test of the check of a path says, and counting marks.
#![tactic(auto)]
