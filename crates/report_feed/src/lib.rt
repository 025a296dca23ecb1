// An input of the reporting program that comes byte by byte, with two of its rows kept: its number, and the flux of its rows.
//
// Document 01, The reporting program. Nothing is read here: report_read passes on what comes; its head is taken in crate report_head. Each promise holds
// for every input and for every way in which it is cut into parts, so what an input is told to be doesn't depend on how it came. Inner calls all:
// report_read calls them.
#![tactic(auto)]

ghost use Rattle.std.specs.Prelude.{◌≡◌, ◌∷◌, []};
ghost use Rattle.numbers.specs.Refusals.{number};
ghost use Rattle.report_feed.specs.Feeds.{FeedReady, Step, Begins, Decides, Closes};

use numbers::Refusal;
use report_head::{Feed, take_first, take_text};

// The number of an input, and how many rows it has where that is 0. Kept as a struct, and no Result: the promise tells a header's rows beside a number
// that refuses its data too (`reading_of`).
#[derive(Clone, Copy)]
pub struct Reading {
    pub number: u32,
    pub rows: usize,
}

// Inner: an input of which nothing has come.
pub fn begun() -> Feed
    ensures { Begins result }
{
    Feed::First { have: 0 }
}

// Takes one byte of the data: a byte behind the last row is one too many.
fn take_data(
    byte: u8,
    rows: usize,
    bins: usize,
    t: usize,
    have: usize,
    fine: bool,
    held: &mut [u8],
    kept: &mut [f32],
    flux: &mut [f64],
) -> Feed
    requires { FeedReady (Feed.Rows rows bins t have fine) held.old kept.old flux.old }
    ensures { Step (byte ∷ []) (Feed.Rows rows bins t have fine) held.old kept.old flux.old
        result held.new kept.new flux.new }
{
    if t == rows {
        return Feed::Refused(Refusal::WrongLength);
    }
    held[have] = byte;
    let come = have + 1;
    let width = bins * 4;
    if come < width {
        return Feed::Rows {
            rows,
            bins,
            t,
            have: come,
            fine,
        };
    }
    let two = 2 * bins;
    let still = report::stream::take_row(&held[..width], bins, t, fine, &mut kept[..two], flux);
    let next = t + 1;
    Feed::Rows {
        rows,
        bins,
        t: next,
        have: 0,
        fine: still,
    }
}

// Takes one byte.
fn take_byte(byte: u8, feed: Feed, held: &mut [u8], kept: &mut [f32], flux: &mut [f64]) -> Feed
    requires { FeedReady feed held.old kept.old flux.old }
    ensures { Step (byte ∷ []) feed held.old kept.old flux.old
        result held.new kept.new flux.new }
{
    match feed {
        Feed::First { have } => take_first(byte, have, held),
        Feed::Text { size, have } => take_text(byte, size, have, held),
        Feed::Rows {
            rows,
            bins,
            t,
            have,
            fine,
        } => take_data(byte, rows, bins, t, have, fine, held, kept, flux),
        Feed::Refused(refusal) => Feed::Refused(refusal),
    }
}

// Inner: takes bytes one after the other. Whatever input had come so far, it has come now with these bytes behind it.
pub fn take_bytes(
    bytes: &[u8],
    feed: Feed,
    held: &mut [u8],
    kept: &mut [f32],
    flux: &mut [f64],
) -> Feed
    requires { FeedReady feed held.old kept.old flux.old }
    ensures { Step bytes.now feed held.old kept.old flux.old
        result held.new kept.new flux.new }
{
    let mut come = feed;
    for &byte in bytes {
        come = take_byte(byte, come, held, kept, flux);
    }
    come
}

// Inner: whether the input is refused, so that nothing that still comes can change what is told of it: a reader may stop there.
pub fn decided(feed: Feed) -> bool
    ensures { Decides feed result }
{
    match feed {
        Feed::First { .. } => false,
        Feed::Text { .. } => false,
        Feed::Rows { .. } => false,
        Feed::Refused(_) => true,
    }
}

// Inner: the input has ended. Whatever input came, the answer is its number, and where that is 0, the flux is that of its rows.
pub fn closed(feed: Feed) -> Reading
    ensures { Closes feed result }
{
    match feed {
        Feed::First { .. } => refused(Refusal::Malformed),
        Feed::Text { .. } => refused(Refusal::Malformed),
        Feed::Rows { rows, t, fine, .. } => {
            let refusal = report::refusal_of(true, t == rows, fine);
            let number = numbers::number_of(&refusal);
            Reading { number, rows }
        }
        Feed::Refused(refusal) => refused(refusal),
    }
}

// Of an input that was refused as it came, or ended within its head, no rows are told.
fn refused(refusal: Refusal) -> Reading
    ensures { result ≡ record { number = number refusal; rows = 0 } }
{
    Reading {
        number: refusal.number(),
        rows: 0,
    }
}
