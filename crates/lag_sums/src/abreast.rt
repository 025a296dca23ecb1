// Lag sums abreast: eight lags side by side, and thirty-two in blocks of times. Each sum is its own lag's, term by term in ascending
// order; only the order between lags differs from the plain form.
//
// Inner steps of `lag_curves::fill_clarity`.
ghost use Rattle.std.specs.Prelude.{◌≡◌, ◌+◌, ◌-◌, ◌≤◌, ◌%◌, length};
ghost use Rattle.numbers.specs.Rounded.{nought};
ghost use Rattle.numbers.specs.Lists.{curve};
ghost use Rattle.lag_sums.specs.Sums.{centred};
ghost use Rattle.lag_sums.specs.Lanes.{eight_by, eight_sums, thirty_two_sums, eight_more, centred_from, entry, eight_run, thirty_two_run};

// Inner: eight sums, at as many lags side by side.
#[derive(Clone, Copy)]
pub struct Eight {
    pub a: f64,
    pub b: f64,
    pub c: f64,
    pub d: f64,
    pub e: f64,
    pub f: f64,
    pub g: f64,
    pub h: f64,
}

// two times eight, one behind the other
#[derive(Clone, Copy)]
struct Sixteen {
    a: Eight,
    b: Eight,
}

// Inner: four times eight, one behind the other.
#[derive(Clone, Copy)]
pub struct ThirtyTwo {
    pub a: Eight,
    pub b: Eight,
    pub c: Eight,
    pub d: Eight,
}

// Inner: eight sums of nothing.
pub fn eight_noughts() -> Eight
    ensures { result ≡ eight_by (λ _. nought) 0 }
{
    Eight {
        a: 0.0,
        b: 0.0,
        c: 0.0,
        d: 0.0,
        e: 0.0,
        f: 0.0,
        g: 0.0,
        h: 0.0,
    }
}

// Each sum with one product more: that of v with eight values in a row, from slot `at` on.
fn eight_more(s: Eight, v: f64, later: &[f64], at: usize) -> Eight
    requires { at + 8 ≤ length later.now }
    ensures { result ≡ eight_more s v (eight_by (entry later.now) at) }
{
    Eight {
        a: s.a + v * later[at],
        b: s.b + v * later[at + 1],
        c: s.c + v * later[at + 2],
        d: s.d + v * later[at + 3],
        e: s.e + v * later[at + 4],
        f: s.f + v * later[at + 5],
        g: s.g + v * later[at + 6],
        h: s.h + v * later[at + 7],
    }
}

// The same of two times, v and w: the second with the values one slot further.
fn two_more(s: Eight, v: f64, w: f64, later: &[f64], at: usize) -> Eight
    requires { at + 9 ≤ length later.now }
    ensures { result ≡ eight_more (eight_more s v (eight_by (entry later.now) at)) w (eight_by (entry later.now) (at + 1)) }
{
    eight_more(eight_more(s, v, later, at), w, later, at + 1)
}

// One product more, with the envelope's slots centred on the way.
fn eight_more_centred(s: Eight, v: f64, envelope: &[f64], mean: f64, at: usize) -> Eight
    requires { at + 8 ≤ length envelope.now }
    ensures { result ≡ eight_more s v (eight_by (centred envelope.now mean) at) }
{
    Eight {
        a: s.a + v * (envelope[at] - mean),
        b: s.b + v * (envelope[at + 1] - mean),
        c: s.c + v * (envelope[at + 2] - mean),
        d: s.d + v * (envelope[at + 3] - mean),
        e: s.e + v * (envelope[at + 4] - mean),
        f: s.f + v * (envelope[at + 5] - mean),
        g: s.g + v * (envelope[at + 6] - mean),
        h: s.h + v * (envelope[at + 7] - mean),
    }
}

// Inner: the sums at eight lags from `lag` on, taken from the times below `from` to those below `past`. Two times a turn: so the compiler
// keeps the lags side by side.
pub fn eight_sums(
    envelope: &[f64],
    mean: f64,
    lag: usize,
    from: usize,
    past: usize,
    sums: Eight,
) -> Eight
    requires from_le_past { (from ≤ past) × ((past - from) % 2 ≡ 0) × (past + lag + 7 ≤ length envelope.now) }
    requires sums_value { sums ≡ eight_sums envelope.now mean lag from }
    ensures { result ≡ eight_sums envelope.now mean lag past }
{
    let mut s = sums;
    let mut t = from;
    // Kept as a while: step_by's loop has a second end, where its count would overflow, to be proved again.
    while t < past {
        s = eight_more_centred(s, envelope[t] - mean, envelope, mean, t + lag);
        s = eight_more_centred(s, envelope[t + 1] - mean, envelope, mean, t + 1 + lag);
        t += 2;
    }
    s
}

// The envelope's slots from `from` on, less the mean, over the whole of `out`.
fn centre(envelope: &[f64], mean: f64, from: usize, out: &mut [f64])
    requires { from + length out.old ≤ length envelope.now }
    ensures { out.new ≡ curve (centred_from envelope.now mean from) (length out.old) }
{
    for i in 0..out.len() {
        out[i] = envelope[from + i] - mean;
    }
}

// Sixteen sums over a run of centred times, with the centred slots of `later` from slot `at` on. Two times a turn, and two eights side by
// side: so the additions of one don't wait for those of the other, and each time is spread over the lanes once for both.
fn sixteen_run(low: Eight, high: Eight, times: &[f64], later: &[f64], at: usize) -> Sixteen
    requires { (length times.now % 2 ≡ 0) × (at + length times.now + 15 ≤ length later.now) }
    ensures { (result.a ≡ eight_run low times.now later.now at)
        × (result.b ≡ eight_run high times.now later.now (at + 8)) }
{
    let mut s = low;
    let mut r = high;
    let mut t = 0;
    // Kept as a while: step_by's loop has a second end, where its count would overflow, to be proved again.
    while t < times.len() {
        let v = times[t];
        let w = times[t + 1];
        s = two_more(s, v, w, later, at + t);
        r = two_more(r, v, w, later, at + 8 + t);
        t += 2;
    }
    Sixteen { a: s, b: r }
}

// Thirty-two sums over a run of centred times.
fn thirty_two_run(sums: ThirtyTwo, times: &[f64], later: &[f64]) -> ThirtyTwo
    requires { (length times.now % 2 ≡ 0) × (length times.now + 31 ≤ length later.now) }
    ensures { result ≡ thirty_two_run sums times.now later.now }
{
    let a = sums.a;
    let b = sums.b;
    let c = sums.c;
    let d = sums.d;
    let low = sixteen_run(a, b, times, later, 0);
    let high = sixteen_run(c, d, times, later, 16);
    let e = low.a;
    let f = low.b;
    let g = high.a;
    let h = high.b;
    ThirtyTwo {
        a: e,
        b: f,
        c: g,
        d: h,
    }
}

// A block of 128 times by thirty-two lags: each centred value is computed once and used thirty-two times.
fn block(envelope: &[f64], mean: f64, lag: usize, t: usize, sums: ThirtyTwo) -> ThirtyTwo
    requires lag_in_bounds { t + lag + 160 ≤ length envelope.now }
    requires sums_value { sums ≡ thirty_two_sums envelope.now mean lag t }
    ensures { result ≡ thirty_two_sums envelope.now mean lag (t + 128) }
{
    let mut times = [0.0; 128];
    let mut later = [0.0; 160];
    centre(envelope, mean, t, &mut times);
    centre(envelope, mean, t + lag, &mut later);
    thirty_two_run(sums, &times, &later)
}

// Inner: the sums at thirty-two lags from `lag` on, over the times below `past`, in blocks.
pub fn block_sums(envelope: &[f64], mean: f64, lag: usize, past: usize) -> ThirtyTwo
    requires { (past % 128 ≡ 0) × (past + lag + 32 ≤ length envelope.now) }
    ensures { result ≡ thirty_two_sums envelope.now mean lag past }
{
    let z = eight_noughts();
    let mut s = ThirtyTwo {
        a: z,
        b: z,
        c: z,
        d: z,
    };
    let mut t = 0;
    // Kept as a while: step_by's loop has a second end, where its count would overflow, to be proved again.
    while t < past {
        s = block(envelope, mean, lag, t, s);
        t += 128;
    }
    s
}
