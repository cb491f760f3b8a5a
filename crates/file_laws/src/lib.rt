// No code: the laws of the plate file (document 02, ticket 2), over the definitions of `file_format`, stand in specs/: what is written is read
// back, and a path has one file.
#![tactic(auto)]
