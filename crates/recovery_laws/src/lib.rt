// No code: the laws of the contours that are recovered from a path with marks (document 02, ticket 6), over the definitions of `contour_recovery`, stand in
// specs/.
#![tactic(auto)]
