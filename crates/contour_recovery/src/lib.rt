// No code: the definitions of the contours that are recovered from a path with marks (document 02, ticket 6), and rows of them, stand in specs/.
#![tactic(auto)]
