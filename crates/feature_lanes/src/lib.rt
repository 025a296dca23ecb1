// What a row of the feature transform adds to the pitch classes and bands of the feature row that it belongs to, four rows side by side.
//
// Document 02, No. 7. The Rust: structure.rs `feature_vectors`. A sum is one chain of additions, in ascending order of rows, then of bins, so the rows of four
// feature rows go side by side, each in its lane; neighbouring bins that add to the same two sums go together (crate feature_bins), so that those stay in
// registers. Inner calls: no caller of the library needs them.
#![tactic(auto)]

ghost use Rattle.std.specs.Prelude.{◌≡◌, true, ◌+◌, ◌≤◌, ◌<◌, length, get_or};
ghost use Rattle.std.specs.Float.{nan};
ghost use Rattle.numbers.specs.Rounded.{sum_from, squared};
ghost use Rattle.numbers.specs.Lists.{every};
ghost use Rattle.feature_lanes.specs.Addends.{strength_fine, itself, stretch_terms, Table, FourAt, FourPut, FourAdded, FineRow};

use feature_bins::BINS;
use flux_rows::Four;

// The sums of a pitch class and of a band, of four feature rows each.
#[derive(Clone, Copy)]
struct Pair {
    class: Four,
    band: Four,
}

fn wide(s: &[f32], i: usize) -> f64
    requires { (i < length s.now) × (every strength_fine s.now ≡ true) }
    ensures { result ≡ get_or s.now i nan }
{
    s[i] as f64
}

// Adds the bins from `from` up to, not including, `past` of each row to its two sums.
fn add_stretch(
    a: &[f32],
    b: &[f32],
    c: &[f32],
    d: &[f32],
    from: usize,
    past: usize,
    classes: Four,
    bands: Four,
) -> Pair
    requires { (from ≤ past)
        × ((past ≤ length a.now) × (past ≤ length b.now) × (past ≤ length c.now) × (past ≤ length d.now))
        × ((every strength_fine a.now ≡ true)
        × (every strength_fine b.now ≡ true)
        × (every strength_fine c.now ≡ true)
        × (every strength_fine d.now ≡ true)) }
    ensures { ((result.class.a ≡ sum_from classes.a (stretch_terms itself a.now from past))
        × (result.class.b ≡ sum_from classes.b (stretch_terms itself b.now from past))
        × (result.class.c ≡ sum_from classes.c (stretch_terms itself c.now from past))
        × (result.class.d ≡ sum_from classes.d (stretch_terms itself d.now from past)))
        × ((result.band.a ≡ sum_from bands.a (stretch_terms squared a.now from past))
        × (result.band.b ≡ sum_from bands.b (stretch_terms squared b.now from past))
        × (result.band.c ≡ sum_from bands.c (stretch_terms squared c.now from past))
        × (result.band.d ≡ sum_from bands.d (stretch_terms squared d.now from past))) }
{
    let mut class = classes;
    let mut band = bands;
    for k in from..past {
        let x = wide(a, k);
        let y = wide(b, k);
        let z = wide(c, k);
        let w = wide(d, k);
        class = Four {
            a: class.a + x,
            b: class.b + y,
            c: class.c + z,
            d: class.d + w,
        };
        band = Four {
            a: band.a + x * x,
            b: band.b + y * y,
            c: band.c + z * z,
            d: band.d + w * w,
        };
    }
    Pair { class, band }
}

// Slots at to at + 3.
fn four_at(s: &[f64], at: usize) -> Four
    requires { at + 4 ≤ length s.now }
    ensures { FourAt s.now at result }
{
    Four {
        a: s[at],
        b: s[at + 1],
        c: s[at + 2],
        d: s[at + 3],
    }
}

// Stores slots at to at + 3.
fn put_four(s: &mut [f64], at: usize, f: Four)
    requires { at + 4 ≤ length s.old }
    ensures { FourPut s.old at f s.new }
{
    s[at] = f.a;
    s[at + 1] = f.b;
    s[at + 2] = f.c;
    s[at + 3] = f.d;
}

fn place(x: u32) -> usize
    ensures { result ≡ x }
{
    x as usize
}

// Inner: adds a row to each lane, by the table of the bins.
pub fn add_row(
    a: &[f32],
    b: &[f32],
    c: &[f32],
    d: &[f32],
    codes: &[u32; 2049],
    pasts: &[u32; 2049],
    classes: &mut [f64],
    bands: &mut [f64],
)
    requires { (FineRow a.now × FineRow b.now × FineRow c.now × FineRow d.now)
        × Table codes.now pasts.now
        × (length classes.old ≡ 52)
        × (length bands.old ≡ 12) }
    ensures { FourAdded codes.now a.now b.now c.now d.now
        classes.old bands.old classes.new bands.new }
{
    let mut k = 0;
    // Kept as a while: a stretch is as long as the table says.
    while k < BINS {
        let past = place(pasts[k]);
        let class = place(codes[k]) / 4 * 4;
        let band = place(codes[k]) % 4 * 4;
        let pair = add_stretch(
            a,
            b,
            c,
            d,
            k,
            past,
            four_at(classes, class),
            four_at(bands, band),
        );
        put_four(classes, class, pair.class);
        put_four(bands, band, pair.band);
        k = past;
    }
}
