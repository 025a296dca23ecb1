// The numeric leaves of document 01: the bits of a float and the total order, whole numbers, logarithms, the exponential.
//
// Inner calls: the crates above share them, and no caller of the library needs them. None refuses anything, each is defined
// for every f64. (The square root is a crate of its own, roots.)
#![tactic(auto)]

pub mod bits;
pub mod exps;
pub mod logs;
pub mod wholes;
