// A grid of beats as a Standard MIDI File of tempos, and back to its gaps.
//
// Document 02, No. 3.
#![tactic(auto)]

ghost use Rattle.std.specs.Prelude.{◌≡◌, true, ◌+◌, ◌-◌, ◌*◌, ◌≤◌, ◌<◌, length};
ghost use Rattle.numbers.specs.Outcomes.{listing};
ghost use Rattle.numbers.specs.Refusals.{number_of};
ghost use Rattle.numbers.specs.Lists.{filled};
ghost use Rattle.texts.specs.Texts.{Put};
ghost use Rattle.midi_gaps.specs.Gaps.{gaps_of, gaps_fit};
ghost use Rattle.midi_events.specs.File.{tempo_events, file_of};
ghost use Rattle.midi_events.specs.Shapes.{track_room, gap_in};
ghost use Rattle.midi.specs.Tracks.{write_refusal, read_refusal, TempoTrackPromise, TempoGapsPromise};

use numbers::Refusal;

// Writes a grid of k beats as a file of k - 1 tempos into the first 26 + 7·(k-1) bytes; later bytes stay. Answers how many bytes it wrote.
// Refuses: 1 a rate outside 1 to 192,000 or a beat above 1,048,575; 6 fewer than two beats, or beats that don't ascend strictly; 7 a gap above
// 16,777,215 microseconds; 3 a file with fewer bytes. The first in this order is given, and then no byte changes. 8 can't arise: two frames lie
// 1,333 microseconds apart or more.
pub fn write_tempo_track(beats: &[u32], rate: u32, file: &mut [u8]) -> Result<usize, Refusal>
    ensures { TempoTrackPromise beats.now rate file.old (listing result) file.new }
{
    write_refusal(beats, rate, file.len())?;
    Ok(put_track(beats, rate, file))
}

// Reads the gaps of such a file, in microseconds, into the first slots; later slots stay. Answers how many they are. Room: one slot for each gap.
// Refuses: 8 anything but exactly what `write_tempo_track` writes of one gap or more, none of them 0 (it need not be that of a grid at some rate);
// 3 fewer slots than gaps. The first in this order is given, and then no slot changes.
pub fn read_tempo_track(file: &[u8], gaps: &mut [u32]) -> Result<usize, Refusal>
    ensures { TempoGapsPromise file.now gaps.old (listing result) gaps.new }
{
    read_refusal(file, gaps.len())?;
    let count = (file.len() - 26) / 7;
    list_gaps(file, count, gaps);
    Ok(count)
}

fn write_refusal(beats: &[u32], rate: u32, room: usize) -> Result<(), Refusal>
    ensures { number_of result ≡ write_refusal beats.now rate room }
{
    midi_gaps::grid_refusal(beats, rate)?;
    if room < 26 + (beats.len() - 1) * 7 {
        return Err(Refusal::TooLittleRoom);
    }
    Ok(())
}

fn read_refusal(file: &[u8], room: usize) -> Result<(), Refusal>
    ensures { number_of result ≡ read_refusal file.now room }
{
    if !midi_events::is_shaped(file) {
        return Err(Refusal::OtherShape);
    }
    if room < (file.len() - 26) / 7 {
        return Err(Refusal::TooLittleRoom);
    }
    Ok(())
}

// Writes the events of a grid from `from` on, and answers the place behind them.
fn put_events(beats: &[u32], rate: u32, file: &mut [u8], from: usize) -> usize
    requires rate_nonzero { (0 < rate) × (1 ≤ length beats.now) }
    requires beats_value { (gaps_fit rate beats.now ≡ true) × (from + (length beats.now - 1) * 7 ≤ length file.old) }
    ensures { Put file.old from (tempo_events 0 (gaps_of rate beats.now)) result file.new }
{
    let count = beats.len() - 1;
    let mut at = from;
    for i in 0..count {
        let gap = midi_gaps::gap_at(beats, rate, i);
        at = midi_events::put_event(file, at, i, gap as u32);
    }
    at
}

// Writes the whole file of a grid, and answers how many bytes it has.
fn put_track(beats: &[u32], rate: u32, file: &mut [u8]) -> usize
    requires { write_refusal beats.now rate (length file.old) ≡ 0 }
    ensures { Put file.old 0 (file_of (gaps_of rate beats.now)) result file.new }
{
    let head = midi_events::front(beats.len() - 1);
    let from = texts::put_words(file, 0, &head);
    let end = put_events(beats, rate, file, from);
    midi_events::put_end(file, end)
}

// Writes the gaps that so many events of a file tell.
fn list_gaps(file: &[u8], count: usize, gaps: &mut [u32])
    requires { (track_room count ≤ length file.now) × (count ≤ length gaps.old) }
    ensures { gaps.new ≡ filled (gap_in file.now) gaps.old 0 count }
{
    for i in 0..count {
        gaps[i] = midi_events::gap_in(file, i);
    }
}
