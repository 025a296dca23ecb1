// Request No. 5: no chain of beats scores higher than the grid that `beat_grid` finds.
//
// No code: specs/ says what a chain and its score are, without a word of how a grid is found; proofs/ proves what is said of the grid of an envelope.
// Of the calls it is said on promises' page Chains.
#![tactic(auto)]
