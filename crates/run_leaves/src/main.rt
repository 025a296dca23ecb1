// The leaves on a list of inputs, for a comparison with Rust's own.
//
// Reads lines of sixteen hexadecimal digits, the bits of an f64. Writes for each a line: the input, the bits of log, log2, exp and
// sqrt, round and ceil as whole numbers, and the place in the total order, all in hexadecimal.
// The file stdout was written by Rust's libm and std (tools/leaves.d), not by this program.
#![tactic(auto)]

ghost use Rattle.std.specs.Prelude.{◌<◌};

use std::io::Read;

// The value of a hexadecimal digit in lower case.
fn digit(b: u8) -> u64
    ensures { result < 16 }
{
    match b {
        b'0'..=b'9' => (b - b'0') as u64,
        b'a'..=b'f' => (b - b'a') as u64 + 10,
        _ => 0,
    }
}

fn number(line: &[u8; 17]) -> u64 {
    let mut n = 0u64;
    for &byte in &line[..16] {
        n = n % 0x1000_0000_0000_0000 * 16 + digit(byte);
    }
    n
}

fn digits(rt: &impl Print, n: u64) {
    let _ = print!(rt; "{n:016x}");
}

fn column(rt: &impl Print, n: u64) {
    let _ = rt.write_all(b" ");
    digits(rt, n);
}

fn answer(rt: &impl Print, n: u64) {
    let x = floats::bits::float_of(n);
    digits(rt, n);
    column(rt, floats::bits::bits_of(floats::logs::log(x)));
    column(rt, floats::bits::bits_of(floats::logs::log2(x)));
    column(rt, floats::bits::bits_of(floats::exps::exp(x)));
    column(rt, floats::bits::bits_of(roots::sqrt(x)));
    column(rt, floats::wholes::round_of(x));
    column(rt, floats::wholes::ceil_of(x));
    column(rt, floats::bits::key_of(x));
    let _ = rt.write_all(b"\n");
}

// Whether there is a further line.
fn next(input: &mut impl Read, line: &mut [u8; 17]) -> bool {
    input.read_exact(line).is_ok()
}

fn main(rt: HostRuntime) {
    let mut input = rt.reader();
    let mut line = [0u8; 17];
    for _ in 0..1_000_000 {
        if !next(&mut input, &mut line) {
            break;
        }
        answer(&rt, number(&line));
    }
}
