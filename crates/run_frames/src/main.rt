// Runs the frame reader on both sides of each boundary: the first row, the last whole one and those past it, no bins, bins above the
// slab, and a slab that ends with a part of a row. A line has how many magnitudes the row holds and which, by the reader and then by the
// call on a plain slice. The file stdout holds what must come out, by document 01.
#![tactic(auto)]

fn main(rt: HostRuntime) {
    rows(&rt);
    bins(&rt);
    slabs(&rt);
}

fn value(rt: &impl Print, x: f32) {
    if x.is_nan() {
        run_show::words(rt, b" nan");
        return;
    }
    run_show::float(rt, x as f64);
}

fn values(rt: &impl Print, part: &[f32]) {
    run_show::count(rt, part.len());
    run_show::words(rt, b":");
    for &x in part {
        value(rt, x);
    }
}

fn row(rt: &impl Print, label: &[u8], slab: &[f32], bins: usize, t: usize) {
    run_show::words(rt, label);
    values(rt, frames::row_at(slab, bins, t));
    run_show::words(rt, b", plain");
    values(rt, frames::row_of(slab, bins, t));
    run_show::end(rt);
}

// Three rows of two bins, and one magnitude more.
fn rows(rt: &impl Print) {
    let slab = [1.0f32, 2.0, 3.0, 4.0, 5.0, 6.0, 7.0];
    row(rt, b"row 0:", &slab, 2, 0);
    row(rt, b"row 1:", &slab, 2, 1);
    row(rt, b"the last whole row:", &slab, 2, 2);
    row(rt, b"the part row:", &slab, 2, 3);
    row(rt, b"one past it:", &slab, 2, 4);
    row(rt, b"row 2^64 - 1:", &slab, 2, usize::MAX);
}

fn bins(rt: &impl Print) {
    let slab = [1.0f32, 2.0, 3.0, 4.0, 5.0, 6.0, 7.0];
    row(rt, b"no bins:", &slab, 0, 0);
    row(rt, b"no bins, row 2^64 - 1:", &slab, 0, usize::MAX);
    row(rt, b"1 bin, the last row:", &slab, 1, 6);
    row(rt, b"1 bin, one past it:", &slab, 1, 7);
    row(rt, b"as many bins as slots:", &slab, 7, 0);
    row(rt, b"as many bins as slots, one past it:", &slab, 7, 1);
    row(rt, b"one bin more:", &slab, 8, 0);
    row(rt, b"2^64 - 1 bins:", &slab, usize::MAX, 0);
    row(
        rt,
        b"2^64 - 1 bins, row 2^64 - 1:",
        &slab,
        usize::MAX,
        usize::MAX,
    );
}

fn slabs(rt: &impl Print) {
    row(rt, b"no slots:", &[], 2, 0);
    row(rt, b"no slots, no bins:", &[], 0, 0);
    let odd = [0.5f32, 0.0f32 / 0.0, 1.0f32 / 0.0, -0.0];
    row(rt, b"any magnitudes, row 0:", &odd, 2, 0);
    row(rt, b"any magnitudes, row 1:", &odd, 2, 1);
}
