// Answers handed over as lent numbers: the last step of each call for C.
//
// A function here takes the answer of a proved call, stores its parts into lent numbers and returns its number of refusal, 0 for an answer. A refusal
// leaves what was lent as it was. Inner calls: crate capi alone needs them.
#![tactic(auto)]

pub mod counts; // counts.rt: a listing
pub mod medians; // medians.rt: a median
pub mod tempos; // tempos.rt: lags, tempo and stability
pub mod grids; // grids.rt: a place in a bar
pub mod forms; // forms.rt: sections
pub mod repairs; // repairs.rt: what a patch wrote
pub mod tracks; // tracks.rt: a room, and a whole track
