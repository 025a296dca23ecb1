// What the library promises, on one page for each question: the marked numbers, that every promise determines its outcome, that
// patching equals starting over, what the meter changes, that no chain of beats is better than the grid, and that what is written in another form
// is read back.
//
// No code: specs/ says it, proofs/ proves it from the promises of the calls.
#![tactic(auto)]
