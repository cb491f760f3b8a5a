// No code: the law that the check of a path (document 02, ticket 7) accepts a path with marks with the contours that are recovered from it (ticket 6) stands
// in specs/.
#![tactic(auto)]
