// The frame reader: a slab of magnitude rows with its bin count, read row by row without a copy.
//
// Document 01, Patching. Added to the Rust, whose rows are vectors of their own.
#![tactic(auto)]

ghost use Rattle.std.specs.Prelude.{◌≡◌};
ghost use Rattle.frames.specs.Frames.{RowOf};

// A slab of rows, each of `bins` magnitudes.
#[derive(Drop)]
pub struct Frames<'a> {
    pub slab: &'a [f32],
    pub bins: usize,
}

// Row t of the slab as a part of it; the empty part at its end past the last whole row, or with zero bins.
// Refuses nothing and copies nothing. The same as the reader's `row`, on a plain slice and numbers.
pub fn row_of<'a>(slab: &'a [f32], bins: usize, t: usize) -> &'a [f32]
    ensures { RowOf slab.entry bins t result }
{
    let n = slab.len();
    if bins == 0 {
        return &slab[n..];
    }
    if t < n / bins {
        let a = t * bins;
        let e = a + bins;
        return &slab[a..e];
    }
    &slab[n..]
}

// A reader over the slab, `bins` magnitudes a row. Any bin count: with zero bins every row is empty.
pub fn frames_of<'a>(slab: &'a [f32], bins: usize) -> Frames<'a>
    ensures { (result.slab ≡ slab.entry) × (result.bins ≡ bins) }
{
    Frames { slab, bins }
}

impl<'a> Frames<'a> {
    // Row t as a part of the slab; the empty part at its end past the last whole row, or with zero bins.
    pub fn row(self, t: usize) -> &'a [f32]
        ensures { RowOf self.entry.slab self.entry.bins t result }
    {
        row_of(self.slab, self.bins, t)
    }
}

// Row t through the reader, for callers with a plain slice: what `frames_of(slab, bins).row(t)` hands back.
pub fn row_at<'a>(slab: &'a [f32], bins: usize, t: usize) -> &'a [f32]
    ensures { RowOf slab.entry bins t result }
{
    frames_of(slab, bins).row(t)
}
