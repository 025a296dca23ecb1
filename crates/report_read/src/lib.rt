// Reads a NumPy array from standard input, to its end or until it is refused, and leaves the flux of its rows.
//
// Document 01, The reporting program. What an input is told to be is decided in report_feed, whose promises hold for every input and for every way in
// which it is cut into reads; here each read's bytes are passed on, until a read gives none or the input is refused. An input that is refused before its
// end is told what it would be told if it were read on, whatever comes (`stopped_early`, and `stopped_agrees` for two runs: report_feed/proofs/Cuts), so
// that a wrong header is refused without the gigabyte behind it. What is proved here is that there is an input of which the number and the flux are right.
// That this input is standard input, read that far, is what the lines of `read_all` say; `read`'s contract says which bytes come only where the reader
// knows what it has left, which standard input doesn't, so it is not proved: runs show it. A read that fails is taken for the end of the input.
#![tactic(auto)]

ghost use Rattle.std.specs.Prelude.{◌≡◌, true, ◌*◌, ◌≤◌, length, take};
ghost use Rattle.numbers.specs.Limits.{magnitude_fine, most_bins};
ghost use Rattle.numbers.specs.Lists.{every};
ghost use Rattle.report.specs.Input.{most_reported};
ghost use Rattle.report_feed.specs.Feeds.{held_room, FeedReady, Step};
ghost use Rattle.report_read.specs.Reads.{InputRead};

use report_feed::Reading;
use report_head::Feed;
use std::io::Read;

// room for what a read gives, and for what is held of an input
const LARGE: usize = 65_536;

// room for two rows of as many bins as there may be
const TWO_ROWS: usize = 2 * numbers::MOST_BINS;

fn large_buffer() -> [u8; LARGE]
    ensures { length result ≡ held_room }
{
    [0; LARGE]
}

fn two_rows() -> [f32; TWO_ROWS]
    ensures { (2 * most_bins ≡ length result) × (every magnitude_fine result ≡ true) }
{
    [0.0f32; TWO_ROWS]
}

// Reads once: how many bytes came, none where the read fails.
fn come(input: &mut impl Read, bytes: &mut [u8]) -> usize
    ensures { result ≤ length bytes.new }
{
    input.read(bytes).unwrap_or(0)
}

// Passes on the first bytes, as many as came.
fn pass_on(
    got: usize,
    bytes: &[u8],
    feed: Feed,
    held: &mut [u8],
    kept: &mut [f32],
    flux: &mut [f64],
) -> Feed
    requires { (got ≤ length bytes.now) × FeedReady feed held.old kept.old flux.old }
    ensures { Step (take got bytes.now) feed held.old kept.old flux.old
        result held.new kept.new flux.new }
{
    report_feed::take_bytes(&bytes[..got], feed, held, kept, flux)
}

// Reads to the end of the input, or until nothing that comes can change what it is told. A proved loop has to end, and nothing says that the input does: so
// it has a last turn, which no run reaches.
fn read_all(
    input: &mut impl Read,
    bytes: &mut [u8],
    held: &mut [u8],
    kept: &mut [f32],
    flux: &mut [f64],
) -> Reading
    requires { (held_room ≤ length held.old) × (2 * most_bins ≤ length kept.old) × (most_reported ≤ length flux.old)
        × (every magnitude_fine kept.old ≡ true) }
    ensures { InputRead flux.old result flux.new }
{
    let mut feed = report_feed::begun();
    for _ in 0..u64::MAX {
        let got = come(input, bytes);
        if got == 0 {
            return report_feed::closed(feed);
        }
        feed = pass_on(got, bytes, feed, held, kept, flux);
        if report_feed::decided(feed) {
            return report_feed::closed(feed);
        }
    }
    report_feed::closed(feed)
}

// Inner: reads the input, all of it unless it is refused before its end. Where its number is 0, the first slots of the flux are those of its rows.
pub fn read_input(rt: &impl Input, flux: &mut [f64]) -> Reading
    requires { most_reported ≤ length flux.old }
    ensures { InputRead flux.old result flux.new }
{
    let mut input = rt.reader();
    let mut bytes = large_buffer();
    let mut held = large_buffer();
    let mut kept = two_rows();
    read_all(&mut input, &mut bytes, &mut held, &mut kept, flux)
}
