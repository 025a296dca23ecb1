// What the programs of the gate print with: each answer as words and numbers on standard output, to be compared with the file stdout.
//
// A write that fails is not told: the comparison then does.
#![tactic(auto)]

use numbers::Refusal;

pub fn words(rt: &impl Print, text: &[u8]) {
    let _ = rt.write_all(text);
}

// The line ends.
pub fn end(rt: &impl Print) {
    words(rt, b"\n");
}

// A space, then the number in decimal.
pub fn number(rt: &impl Print, n: u64) {
    let _ = print!(rt; " {n}");
}

// A frame, a lag, a refusal.
pub fn small(rt: &impl Print, n: u32) {
    number(rt, n as u64);
}

// A count.
pub fn count(rt: &impl Print, n: usize) {
    number(rt, n as u64);
}

// A space, then the float's sixty-four bits in hexadecimal, or nan.
pub fn float(rt: &impl Print, x: f64) {
    if x.is_nan() {
        words(rt, b" nan");
        return;
    }
    let bits = x.to_bits();
    let _ = print!(rt; " {bits:016x}");
}

pub fn floats(rt: &impl Print, xs: &[f64]) {
    for &x in xs {
        float(rt, x);
    }
}

pub fn smalls(rt: &impl Print, xs: &[u32]) {
    for &x in xs {
        small(rt, x);
    }
}

pub fn counts(rt: &impl Print, xs: &[usize]) {
    for &x in xs {
        count(rt, x);
    }
}

// What a call answers beside what it gives: 0, or the number of its refusal.
pub fn outcome<T>(rt: &impl Print, answer: &Result<T, Refusal>) {
    small(rt, numbers::number_of(answer));
}

// The same of a call that lists, and how many it listed: none where it refuses.
pub fn listing(rt: &impl Print, answer: Result<usize, Refusal>) {
    outcome(rt, &answer);
    count(rt, answer.unwrap_or(0));
}

// A refusal, where an answer has no number otherwise.
pub fn refused(rt: &impl Print, refusal: Refusal) {
    words(rt, b" refused");
    small(rt, refusal.number());
}
