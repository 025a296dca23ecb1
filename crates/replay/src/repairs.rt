// A patch of forty magnitude rows of one bin, and one of twenty feature rows, some refused.
use crate::{inputs, lines};
use numbers::Refusal;
use patch_features::PatchedFeatures;
use patch_magnitudes::Patched;

fn named(rt: &impl Print, a: usize, b: usize, c: usize, d: usize) {
    run_show::count(rt, a);
    run_show::count(rt, b);
    run_show::count(rt, c);
    run_show::count(rt, d);
}

fn wrote(rt: &impl Print, answer: Result<Patched, Refusal>) {
    run_show::words(rt, b"patch");
    run_show::outcome(rt, &answer);
    if let Ok(p) = answer {
        named(
            rt,
            p.flux_first,
            p.flux_past,
            p.threshold_first,
            p.threshold_past,
        );
    }
    run_show::end(rt);
}

fn flux_of(slab: &[f32; 40]) -> [f64; 40] {
    let mut flux = [0.0f64; 40];
    let _ = flux::spectral_flux(slab, 40, 1, &mut flux);
    flux
}

fn threshold_of(flux: &[f64; 40]) -> [f64; 40] {
    let mut threshold = [0.0f64; 40];
    let mut work = [0.0f64; 21];
    let _ = threshold::adaptive_threshold(flux, &mut threshold, &mut work);
    threshold
}

// Rows from start on are replaced by up to twenty others; the curves were those of the rows before.
fn magnitudes(rt: &impl Print, s: u64, start: usize) {
    let mut slab = inputs::slab(s);
    let new = inputs::slab(inputs::next(s));
    let mut flux = flux_of(&slab);
    let mut threshold = threshold_of(&flux);
    let mut work = [0.0f64; 21];
    wrote(
        rt,
        patch_magnitudes::patch_magnitudes(
            &mut slab,
            40,
            1,
            start,
            &new[0..20],
            &mut flux,
            &mut threshold,
            &mut work,
        ),
    );
    patched(rt, &flux, &threshold);
}

fn patched(rt: &impl Print, flux: &[f64; 40], threshold: &[f64; 40]) {
    lines::slots(rt, b"patched flux", flux);
    lines::slots(rt, b"patched threshold", threshold);
}

fn wrote_features(rt: &impl Print, answer: Result<PatchedFeatures, Refusal>) {
    run_show::words(rt, b"feature patch");
    run_show::outcome(rt, &answer);
    if let Ok(p) = answer {
        named(
            rt,
            p.similarity_first,
            p.similarity_past,
            p.novelty_first,
            p.novelty_past,
        );
    }
    run_show::end(rt);
}

fn similarity_of(features: &[f64; 320]) -> [f64; 340] {
    let mut similarity = [0.0f64; 340];
    let _ = similarities::similarity(features, 20, &mut similarity);
    similarity
}

fn novelty_of(similarity: &[f64; 340]) -> [f64; 20] {
    let mut novelty = [0.0f64; 20];
    let _ = novelties::novelty(similarity, 20, &mut novelty);
    novelty
}

fn features(rt: &impl Print, s: u64, start: usize) {
    let mut lent = inputs::features(s);
    let new = inputs::features(inputs::next(s));
    let mut similarity = similarity_of(&lent);
    let mut novelty = novelty_of(&similarity);
    wrote_features(
        rt,
        patch_features::patch_features(
            &mut lent,
            20,
            start,
            &new[0..48],
            &mut similarity,
            &mut novelty,
        ),
    );
    lines::slots(rt, b"patched novelty", &novelty);
}

pub fn round(rt: &impl Print, s: u64) {
    magnitudes(rt, s, inputs::up_to_forty(s));
    features(rt, s, inputs::up_to_twenty(s));
}
