// How large the results of the leaves are: logarithms, exp at or below 0, rounded values.
//
// No code: a crate of laws (proofs/) that the crates above cite in their proofs.
#![tactic(auto)]
