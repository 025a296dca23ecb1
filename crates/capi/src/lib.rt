// The C interface: each call of the library as an exported function, over numbers and slices alone.
//
// A slice is a pointer and a length. Each function but `ph_version` returns the number of refusal of the proved call behind it, 0 for an
// answer; the other parts of that call's answer go into lent numbers, which a refusal leaves as they were. Options are three numbers, in the record's order.
// Nothing is allocated and nothing is kept from call to call. include/prohunsev.h is the header.
#![tactic(auto)]

pub mod choices; // choices.rt: the options of a call
pub mod versions; // versions.rt: which version of the library this is
pub mod medians; // medians.rt: median and median of distances
pub mod rhythm; // rhythm.rt: flux, threshold, onsets and times
pub mod tempos; // tempos.rt: lags, tempo and stability
pub mod grids; // grids.rt: beats, downbeats, bars
pub mod rows; // rows.rt: feature rows
pub mod forms; // forms.rt: similarity, novelty, sections
pub mod repairs; // repairs.rt: patches
pub mod tracks; // tracks.rt: one whole track in one call
pub mod formats; // formats.rt: files
