// The bins of the feature transform: where each stands, its pitch class and its band, as a table for one sample rate.
//
// Document 02, No. 7. The Rust: structure.rs `feature_vectors`, which takes a logarithm for each row and bin; the table takes one for each bin. Inner
// calls: no caller of the library needs them.
#![tactic(auto)]

ghost use Rattle.std.specs.Prelude.{◌≡◌, ◌+◌, ◌<◌, length};
ghost use Rattle.feature_bins.specs.Bins.{bin_count, hz_of, class_of, class_slot, band_of, Codes, Stretch, Pasts};

use floats::logs::log2;
use floats::wholes::round_of;

// Inner: bins of a row.
pub const BINS: usize = 2049;

// Inner: what stands for no pitch class, one more than the last.
pub const NO_CLASS: u32 = 12;

// The frequency of bin k.
fn bin_hz(rate: u32, k: u32) -> f64
    ensures { result ≡ hz_of rate k }
{
    (k as f64) * (rate as f64) / 4096.0
}

// The remainder by 12 of a pitch, rounded half away from zero.
fn class_of(pitch: f64) -> u32
    ensures { (result ≡ class_of pitch) × (result < 12) }
{
    if pitch < 0.0 {
        let below = round_of(-pitch) % 12;
        return ((12 - below) % 12) as u32;
    }
    (round_of(pitch) % 12) as u32
}

// The pitch class of a frequency from 55 to 5,000 Hz, and 12 for another.
fn class_slot(hz: f64) -> u32
    ensures { (result ≡ class_slot hz) × (result < 13) }
{
    if hz >= 55.0 {
        if hz <= 5000.0 {
            return class_of(69.0 + 12.0 * log2(hz / 440.0));
        }
    }
    NO_CLASS
}

// The band of a frequency.
fn band_of(hz: f64) -> u32
    ensures { (result ≡ band_of hz) × (result < 3) }
{
    if hz < 250.0 {
        return 0;
    }
    if hz <= 4000.0 {
        return 1;
    }
    2
}

// Inner: pitch class and band of each bin, as one number: four times the class, and the band.
pub fn fill_codes(rate: u32, codes: &mut [u32; 2049])
    requires { length codes.old ≡ bin_count }
    ensures { Codes rate codes.new }
{
    for k in 0..BINS {
        let hz = bin_hz(rate, k as u32);
        codes[k] = class_slot(hz) * 4 + band_of(hz);
    }
}

// A bin past bin k up to which all have its number: the first that has another, where that of the next bin is known.
fn past_at(codes: &[u32; 2049], pasts: &[u32; 2049], k: usize) -> u32
    requires { (k + 1 < bin_count) × (length codes.now ≡ bin_count) × Pasts codes.now (k + 1) pasts.now }
    ensures { Stretch codes.now k result }
{
    if codes[k] == codes[k + 1] {
        return pasts[k + 1];
    }
    (k + 1) as u32
}

// Inner: for each bin the first bin past it that has another number. The bins in between add to the same sums, which is all that is promised: how far
// a stretch goes is a matter of speed.
pub fn fill_pasts(codes: &[u32; 2049], pasts: &mut [u32; 2049])
    requires { (length codes.now ≡ bin_count) × (length pasts.old ≡ bin_count) }
    ensures { Pasts codes.now 0 pasts.new }
{
    pasts[BINS - 1] = 2049;
    for k in (0..BINS - 1).rev() {
        pasts[k] = past_at(codes, pasts, k);
    }
}
