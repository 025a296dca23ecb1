// Feeds inputs of the reporting program to crate report_feed, each whole, in parts of 64 bytes and byte by byte, and prints what each is told: its
// rows, or the number that refuses it. The file stdout holds what must come out, written from the paper, thrice the same on a line.
//
// The cases stand in tables, each up to its dollar sign, with a bar behind the label: no input has one of these two bytes. What is
// printed is proved to be right of the input; the program shows that it is run so.
#![tactic(auto)]

ghost use Rattle.std.specs.Prelude.{◌≡◌, true, ◌*◌, ◌≤◌, length};
ghost use Rattle.numbers.specs.Limits.{magnitude_fine, most_bins};
ghost use Rattle.numbers.specs.Lists.{every};
ghost use Rattle.report.specs.Input.{most_reported};
ghost use Rattle.report_feed.specs.Feeds.{held_room, Told};

use report::MOST_REPORTED;
use report_feed::Reading;

// bytes of a part: one, some, and as many as no case has
const BYTE: usize = 1;

const SOME: usize = 64;

const WHOLE: usize = 1_000;

const HELD: usize = 65_536;

const TWO_ROWS: usize = 2 * numbers::MOST_BINS;

fn main(rt: HostRuntime) {
    refused(&rt);
    bounds(&rt);
    heads(&rt);
}

fn table(rt: &impl Print, text: &[u8]) {
    let n = run_cases::marks(text, b'$');
    for k in 0..n {
        run(rt, run_cases::part(text, b'$', k));
    }
}

fn run(rt: &impl Print, line: &[u8]) {
    run_show::words(rt, run_cases::part(line, b'|', 0));
    let input = run_cases::part(line, b'|', 1);
    told(rt, input, WHOLE);
    told(rt, input, SOME);
    told(rt, input, BYTE);
    run_show::end(rt);
}

// ---- one input, in parts of so many bytes

fn told(rt: &impl Print, input: &[u8], size: usize)
    requires { 1 ≤ size }
{
    let mut held = held_room();
    let mut kept = two_rows();
    let mut flux = flux_room();
    let reading = fed(input, size, &mut held, &mut kept, &mut flux);
    if reading.number != 0 {
        run_show::words(rt, b" refused");
        return run_show::small(rt, reading.number);
    }
    run_show::words(rt, b" rows");
    run_show::count(rt, reading.rows);
}

// What is told of the input, however it is cut.
fn fed(input: &[u8], size: usize, held: &mut [u8], kept: &mut [f32], flux: &mut [f64]) -> Reading
    requires le_size { (1 ≤ size) × (held_room ≤ length held.old) × (2 * most_bins ≤ length kept.old) × (most_reported ≤ length flux.old) }
    requires kept_value { every magnitude_fine kept.old ≡ true }
    ensures { Told input.now result flux.old flux.new }
{
    let mut feed = report_feed::begun();
    for part in input.chunks(size) {
        feed = report_feed::take_bytes(part, feed, held, kept, flux);
    }
    report_feed::closed(feed)
}

fn held_room() -> [u8; HELD]
    ensures { length result ≡ held_room }
{
    [0; HELD]
}

fn two_rows() -> [f32; TWO_ROWS]
    ensures { (length result ≡ 2 * most_bins) × (every magnitude_fine result ≡ true) }
{
    [0.0f32; TWO_ROWS]
}

fn flux_room() -> [f64; MOST_REPORTED]
    ensures { length result ≡ most_reported }
{
    [0.0; MOST_REPORTED]
}

// ---- the cases

// An array without rows, and each number of refusal before those that would apply after it.
fn refused(rt: &impl Print) {
    table(
        rt,
        b"\
          no rows|\x93NUMPY\x01\x00\x76\x00\
          {'descr': '<f4', 'fortran_order': False, 'shape': (0, 3), }                                                          \n$\
          8,001 rows, a NaN, too few bytes|\x93NUMPY\x01\x00\x76\x00\
          {'descr': '<f4', 'fortran_order': False, 'shape': (8001, 1), }                                                       \n\xff\xff\xff\x7f$\
          a byte too many, an infinity|\x93NUMPY\x01\x00\x76\x00\
          {'descr': '<f4', 'fortran_order': False, 'shape': (2, 2), }                                                          \n\
          \x00\x00\x80?\x00\x00\x00@\x00\x00\x80\x7f\x00\x00\x80@\x00$\
          a byte too few|\x93NUMPY\x01\x00\x76\x00\
          {'descr': '<f4', 'fortran_order': False, 'shape': (3, 1), }                                                          \n\
          \x00\x00\x80?\x00\x00\x00@\x00\x00\x80$\
          above 2^126|\x93NUMPY\x01\x00\x76\x00\
          {'descr': '<f4', 'fortran_order': False, 'shape': (3, 1), }                                                          \n\
          \x01\x00\x80~\x00\x00\x80?\x00\x00\x00@$\
          a needless zero|\x93NUMPY\x01\x00\x76\x00\
          {'descr': '<f4', 'fortran_order': False, 'shape': (03, 1), }                                                         \n\
          \x00\x00\x80?\x00\x00\x00@\x00\x00@@$",
    );
}

// Both sides of each bound.
fn bounds(rt: &impl Print) {
    table(
        rt,
        b"\
          the paper's example|\x93NUMPY\x01\x00\x76\x00\
          {'descr': '<f4', 'fortran_order': False, 'shape': (4, 1), }                                                          \n\
          \x00\x00\x00\x00\x00\x00\x00\x00\x00\x00\xa0@\x00\x00\x00\x00$\
          2^126|\x93NUMPY\x01\x00\x3c\x00{'descr': '<f4', 'fortran_order': False, 'shape': (1, 1), }\n\x00\x00\x80~$\
          minus 2^126|\x93NUMPY\x01\x00\x3c\x00{'descr': '<f4', 'fortran_order': False, 'shape': (1, 1), }\n\x00\x00\x80\xfe$\
          the next above it|\x93NUMPY\x01\x00\x3c\x00{'descr': '<f4', 'fortran_order': False, 'shape': (1, 1), }\n\x01\x00\x80~$\
          8,000 rows, no bytes|\x93NUMPY\x01\x00\x3f\x00{'descr': '<f4', 'fortran_order': False, 'shape': (8000, 1), }\n$\
          4,096 bins|\x93NUMPY\x01\x00\x3f\x00{'descr': '<f4', 'fortran_order': False, 'shape': (0, 4096), }\n$\
          4,097 bins|\x93NUMPY\x01\x00\x3f\x00{'descr': '<f4', 'fortran_order': False, 'shape': (0, 4097), }\n$\
          no bins|\x93NUMPY\x01\x00\x3c\x00{'descr': '<f4', 'fortran_order': False, 'shape': (0, 0), }\n$\
          no rows and a byte|\x93NUMPY\x01\x00\x3c\x00{'descr': '<f4', 'fortran_order': False, 'shape': (0, 1), }\n\x00$\
          rows of two bins|\x93NUMPY\x01\x00\x3c\x00\
          {'descr': '<f4', 'fortran_order': False, 'shape': (2, 2), }\n\x00\x00\x80?\x00\x00\x00@\x00\x00@@\x00\x00\x80@$\
          half a row of two|\x93NUMPY\x01\x00\x3c\x00{'descr': '<f4', 'fortran_order': False, 'shape': (2, 2), }\n\x00\x00\x80?\x00\x00\x00@\x00\x00@@$",
    );
}

// Inputs that end before or within the header, or whose text is not as long as they say.
fn heads(rt: &impl Print) {
    table(
        rt,
        b"\
          nothing|$\
          nine bytes|\x93NUMPY\x01\x00\x76$\
          ten bytes|\x93NUMPY\x01\x00\x76\x00$\
          a text of no bytes|\x93NUMPY\x01\x00\x00\x00$\
          another version|\x93NUMPY\x02\x00$\
          no line feed yet|\x93NUMPY\x01\x00\x3c\x00{'descr': '<f4', 'fortran_order': False, 'shape': (0, 1), }$\
          the text longer by one|\x93NUMPY\x01\x00\x3d\x00{'descr': '<f4', 'fortran_order': False, 'shape': (0, 1), }\n $\
          the text shorter by one|\x93NUMPY\x01\x00\x3b\x00{'descr': '<f4', 'fortran_order': False, 'shape': (0, 1), }\n$",
    );
}
