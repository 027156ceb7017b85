#![tactic(auto)]

// The table of docs/RULES.md, "Points worked through" (specs/), and that every row of it is right
// (proofs/). It has no code: `worked_points` runs the points, and what else the rules say of worked states.
