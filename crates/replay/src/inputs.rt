// The inputs: whole numbers of one sequence, and curves of few values, of pulses on a floor, of a ripple, and of values below 0.
ghost use Rattle.std.specs.Prelude.{◌<◌, ◌≤◌};

// The number after s: Lehmer's sequence.
pub fn next(s: u64) -> u64
    ensures { result < 2147483647 }
{
    (s % 2147483646 + 1) * 48271 % 2147483647
}

// Slot t of a curve of one of four kinds.
pub fn level(kind: u64, t: usize, s: u64) -> f64 {
    match kind {
        0 => (s % 3) as u32 as f64,
        1 if t % 5 == 1 => (s % 8) as u32 as f64 + 40.0,
        1 => (s % 2) as u32 as f64,
        2 => (s % 1000) as u32 as f64 / 8.0,
        _ => ((s % 201) as u32 as f64 - 100.0) / 16.0,
    }
}

// Fills a curve, of the kind and with the numbers that follow s.
pub fn fill(curve: &mut [f64], s: u64) {
    let kind = s % 4;
    let mut x = s;
    for (t, slot) in curve.iter_mut().enumerate() {
        x = next(x);
        *slot = level(kind, t, x);
    }
}

// Sixteen values for each of twenty rows, filled so.
pub fn features(s: u64) -> [f64; 320] {
    let mut values = [0.0f64; 320];
    fill(&mut values, s);
    values
}

// A magnitude.
fn magnitude(s: u64) -> f32 {
    ((s % 50) as u16) as f32
}

// Fills a slab of magnitudes with the numbers that follow s.
pub fn fill_magnitudes(slab: &mut [f32], s: u64) {
    let mut x = s;
    for slot in slab.iter_mut() {
        x = next(x);
        *slot = magnitude(x);
    }
}

// A slab of forty magnitudes with the numbers that follow s.
pub fn slab(s: u64) -> [f32; 40] {
    let mut slab = [0.0f32; 40];
    fill_magnitudes(&mut slab, s);
    slab
}

// Entry t of a list of up to twelve ascending frames.
fn peak(t: usize, s: u64) -> u32 {
    (3 * (t % 12)) as u32 + (s % 3) as u32
}

// Fills such a list with the numbers that follow s.
pub fn fill_peaks(peaks: &mut [u32], s: u64) {
    let mut x = s;
    for (t, slot) in peaks.iter_mut().enumerate() {
        x = next(x);
        *slot = peak(t, x);
    }
}

// A number from 0 to 40, from 0 to 20, and from 0 to 3.
pub fn up_to_forty(s: u64) -> usize
    ensures { result ≤ 40 }
{
    (s % 41) as usize
}

pub fn up_to_twenty(s: u64) -> usize
    ensures { result ≤ 20 }
{
    (s % 21) as usize
}

pub fn up_to_three(s: u64) -> usize
    ensures { result ≤ 3 }
{
    (s % 4) as usize
}
