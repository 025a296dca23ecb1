// Runs the reader of NumPy headers and values on both sides of each boundary of document 01 and prints what it answers. The file stdout holds
// what must come out, written from the paper: a header's text is exactly as it gives it.
//
// The cases stand in tables, each up to its dollar sign, with bars between the columns: the label, then what the function of that name takes, where (1)
// is column 1.
#![tactic(auto)]

ghost use Rattle.std.specs.Prelude.{◌≤◌};

use report_npy::Shape;

const PREAMBLE: usize = 1;

const HEADER: usize = 2;

const VALUE: usize = 3;

const ROW: usize = 4;

fn main(rt: HostRuntime) {
    preambles(&rt);
    shapes(&rt);
    large_shapes(&rt);
    ends(&rt);
    bad_numbers(&rt);
    bad_texts(&rt);
    values(&rt);
    rows(&rt);
}

fn table(rt: &impl Print, call: usize, text: &[u8]) {
    let n = run_cases::marks(text, b'$');
    for k in 0..n {
        run(rt, call, run_cases::part(text, b'$', k));
    }
}

fn run(rt: &impl Print, call: usize, line: &[u8]) {
    run_show::words(rt, run_cases::part(line, b'|', 0));
    if call == PREAMBLE {
        return preamble(rt, run_cases::part(line, b'|', 1));
    }
    if call == HEADER {
        return header(rt, run_cases::part(line, b'|', 1));
    }
    if call == VALUE {
        return value(rt, line);
    }
    row(
        rt,
        run_cases::column_within(line, 1, 13),
        run_cases::column_within(line, 2, 4),
    );
}

// ---- the ten bytes

fn preamble(rt: &impl Print, bytes: &[u8]) {
    match report_npy::read_preamble(bytes) {
        None => run_show::words(rt, b" malformed"),
        Some(size) => run_show::count(rt, size),
    }
    run_show::end(rt);
}

fn preambles(rt: &impl Print) {
    table(
        rt,
        PREAMBLE,
        b"\
          length 118|\x93NUMPY\x01\x00\x76\x00$\
          length 0|\x93NUMPY\x01\x00\x00\x00$\
          length 65535|\x93NUMPY\x01\x00\xff\xff$\
          eleven bytes|\x93NUMPY\x01\x00\x01\x02\x03$\
          nine bytes|\x93NUMPY\x01\x00\x76$\
          no bytes|$\
          version 2.0|\x93NUMPY\x02\x00\x76\x00$\
          version 1.1|\x93NUMPY\x01\x01\x76\x00$\
          another magic|\x92NUMPY\x01\x00\x76\x00$",
    );
}

// ---- the header's text

fn header(rt: &impl Print, text: &[u8]) {
    match report_npy::read_header(text) {
        None => run_show::words(rt, b" malformed"),
        Some(Shape { rows, bins }) => {
            run_show::number(rt, rows);
            run_show::number(rt, bins);
        }
    }
    run_show::end(rt);
}

fn shapes(rt: &impl Print) {
    table(
        rt,
        HEADER,
        b"\
          (4, 1)|{'descr': '<f4', 'fortran_order': False, 'shape': (4, 1), }\n$\
          (0, 0)|{'descr': '<f4', 'fortran_order': False, 'shape': (0, 0), }\n$\
          (8000, 4096)|{'descr': '<f4', 'fortran_order': False, 'shape': (8000, 4096), }\n$\
          (10, 100)|{'descr': '<f4', 'fortran_order': False, 'shape': (10, 100), }\n$",
    );
}

// A number above 4,294,967,295 is told as that.
fn large_shapes(rt: &impl Print) {
    table(
        rt,
        HEADER,
        b"\
          the largest that is told|{'descr': '<f4', 'fortran_order': False, 'shape': (4294967295, 4294967294), }\n$\
          one more|{'descr': '<f4', 'fortran_order': False, 'shape': (4294967296, 1), }\n$\
          too large for a word|{'descr': '<f4', 'fortran_order': False, 'shape': (1, 18446744073709551616), }\n$\
          thirty digits|{'descr': '<f4', 'fortran_order': False, 'shape': (100000000000000000000000000000, 3), }\n$",
    );
}

fn ends(rt: &impl Print) {
    table(
        rt,
        HEADER,
        b"\
          one space|{'descr': '<f4', 'fortran_order': False, 'shape': (4, 1), } \n$\
          seven spaces|{'descr': '<f4', 'fortran_order': False, 'shape': (4, 1), }       \n$\
          no line feed|{'descr': '<f4', 'fortran_order': False, 'shape': (4, 1), }   $\
          a byte behind the line feed|{'descr': '<f4', 'fortran_order': False, 'shape': (4, 1), }  \n $\
          a tab|{'descr': '<f4', 'fortran_order': False, 'shape': (4, 1), }\t\n$\
          a carriage return|{'descr': '<f4', 'fortran_order': False, 'shape': (4, 1), }\r\n$",
    );
}

fn bad_numbers(rt: &impl Print) {
    table(
        rt,
        HEADER,
        b"\
          a needless zero before N|{'descr': '<f4', 'fortran_order': False, 'shape': (04, 1), }\n$\
          a needless zero before B|{'descr': '<f4', 'fortran_order': False, 'shape': (4, 00), }\n$\
          no N|{'descr': '<f4', 'fortran_order': False, 'shape': (, 1), }\n$\
          a sign|{'descr': '<f4', 'fortran_order': False, 'shape': (-4, 1), }\n$\
          one dimension|{'descr': '<f4', 'fortran_order': False, 'shape': (4,), }\n$\
          three dimensions|{'descr': '<f4', 'fortran_order': False, 'shape': (4, 1, 1), }\n$\
          no space between|{'descr': '<f4', 'fortran_order': False, 'shape': (4,1), }\n$",
    );
}

fn bad_texts(rt: &impl Print) {
    table(
        rt,
        HEADER,
        b"\
          another type|{'descr': '<f8', 'fortran_order': False, 'shape': (4, 1), }\n$\
          the other order|{'descr': '<f4', 'fortran_order': True, 'shape': (4, 1), }\n$\
          a space in front| {'descr': '<f4', 'fortran_order': False, 'shape': (4, 1), }\n$\
          cut in the front|{'descr': '<f4', 'fortran_order': False, 'shape': $\
          cut behind N|{'descr': '<f4', 'fortran_order': False, 'shape': (4$\
          cut behind B|{'descr': '<f4', 'fortran_order': False, 'shape': (4, 1$\
          empty|$",
    );
}

// ---- values, by their bits as f64

// Of the bytes (1) to (4).
fn value(rt: &impl Print, line: &[u8]) {
    float(
        rt,
        report_npy::value_of(byte(line, 1), byte(line, 2), byte(line, 3), byte(line, 4)),
    );
    run_show::end(rt);
}

fn byte(line: &[u8], k: usize) -> u8 {
    run_cases::column_within(line, k, 255) as u8
}

fn float(rt: &impl Print, x: f32) {
    run_show::float(rt, std::num::f32_to_f64_with_nan(x));
}

fn values(rt: &impl Print) {
    table(
        rt,
        VALUE,
        b"\
          one|0|0|128|63$\
          minus two|0|0|0|192$\
          zero|0|0|0|0$\
          minus zero|0|0|0|128$\
          the least above zero|1|0|0|0$\
          2^126|0|0|128|126$\
          the largest|255|255|127|127$\
          infinity|0|0|128|127$\
          minus infinity|0|0|128|255$\
          the first NaN|1|0|128|127$\
          the last NaN|255|255|255|127$\
          the first NaN with a sign|1|0|128|255$\
          the last NaN with a sign|255|255|255|255$",
    );
}

// ---- a row: as many values as the bytes hold whole and the row has slots for

// The first `many` bytes of thirteen, into the first slots of four.
fn row(rt: &impl Print, many: usize, slots: usize)
    requires { (many ≤ 13) × (slots ≤ 4) }
{
    let bytes = [0u8, 0, 128, 63, 0, 0, 0, 64, 0, 0, 64, 64, 7];
    let mut out = [9.0f32; 4];
    report_npy::read_values(&bytes[0..many], &mut out[0..slots]);
    four(rt, &out);
}

fn four(rt: &impl Print, row: &[f32; 4]) {
    float(rt, row[0]);
    float(rt, row[1]);
    float(rt, row[2]);
    float(rt, row[3]);
    run_show::end(rt);
}

fn rows(rt: &impl Print) {
    table(
        rt,
        ROW,
        b"\
          three values in four slots|12|4$\
          three values and a byte in four slots|13|4$\
          two values and three bytes in four slots|11|4$\
          three values in two slots|12|2$\
          three bytes in four slots|3|4$\
          no bytes in no slots|0|0$",
    );
}
