// No code: the law that what the retrace call finishes gives back the plate (document 02, ticket 6), over the definitions of `contour_recovery`, stands in
// specs/.
#![tactic(auto)]
