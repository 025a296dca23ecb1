// How large floats are, and in what order they stand.
//
// No code: a crate of definitions (specs/) and laws (proofs/) that the crates above cite in their proofs.
#![tactic(auto)]
