// The calls of crates midi, labels, cues and label_cues, for C: files made of frames, and read.
ghost use Rattle.capi.specs.Lists.{PhTempoTrackPromise, PhTempoGapsPromise, PhLabelsRoomPromise, PhWriteLabelsPromise, PhReadLabelsPromise};
ghost use Rattle.capi.specs.Lists.{PhWriteCuesPromise, PhReadCuesPromise, PhLabelsToCuesPromise, PhCuesToLabelsPromise};

use capi_answers::counts::counted;

// `midi::write_tempo_track`, for C.
#[unsafe(no_mangle)]
pub extern "C" fn ph_write_tempo_track(
    beats: &[u32],
    rate: u32,
    file: &mut [u8],
    count: &mut usize,
) -> u32
    ensures { PhTempoTrackPromise beats.now rate file.old count.old
        result file.new count.new }
{
    counted(midi::write_tempo_track(beats, rate, file), count)
}

// `midi::read_tempo_track`, for C.
#[unsafe(no_mangle)]
pub extern "C" fn ph_read_tempo_track(file: &[u8], gaps: &mut [u32], count: &mut usize) -> u32
    ensures { PhTempoGapsPromise file.now gaps.old count.old
        result gaps.new count.new }
{
    counted(midi::read_tempo_track(file, gaps), count)
}

// `labels::labels_room`, for C.
#[unsafe(no_mangle)]
pub extern "C" fn ph_labels_room(frames: &[u32], rate: u32, count: &mut usize) -> u32
    ensures { PhLabelsRoomPromise frames.now rate count.old result count.new }
{
    counted(labels::labels_room(frames, rate), count)
}

// `labels::write_labels`, for C.
#[unsafe(no_mangle)]
pub extern "C" fn ph_write_labels(
    frames: &[u32],
    rate: u32,
    text: &mut [u8],
    count: &mut usize,
) -> u32
    ensures { PhWriteLabelsPromise frames.now rate text.old count.old
        result text.new count.new }
{
    counted(labels::write_labels(frames, rate, text), count)
}

// `labels::read_labels`, for C.
#[unsafe(no_mangle)]
pub extern "C" fn ph_read_labels(
    text: &[u8],
    rate: u32,
    frames: &mut [u32],
    count: &mut usize,
) -> u32
    ensures { PhReadLabelsPromise text.now rate frames.old count.old
        result frames.new count.new }
{
    counted(labels::read_labels(text, rate, frames), count)
}

// `cues::write_cues`, for C.
#[unsafe(no_mangle)]
pub extern "C" fn ph_write_cues(frames: &[u32], chunk: &mut [u8], count: &mut usize) -> u32
    ensures { PhWriteCuesPromise frames.now chunk.old count.old
        result chunk.new count.new }
{
    counted(cues::write_cues(frames, chunk), count)
}

// `cues::read_cues`, for C.
#[unsafe(no_mangle)]
pub extern "C" fn ph_read_cues(chunk: &[u8], frames: &mut [u32], count: &mut usize) -> u32
    ensures { PhReadCuesPromise chunk.now frames.old count.old
        result frames.new count.new }
{
    counted(cues::read_cues(chunk, frames), count)
}

// `label_cues::labels_to_cues`, for C.
#[unsafe(no_mangle)]
pub extern "C" fn ph_labels_to_cues(
    text: &[u8],
    rate: u32,
    chunk: &mut [u8],
    count: &mut usize,
) -> u32
    ensures { PhLabelsToCuesPromise text.now rate chunk.old count.old
        result chunk.new count.new }
{
    counted(label_cues::labels_to_cues(text, rate, chunk), count)
}

// `label_cues::cues_to_labels`, for C.
#[unsafe(no_mangle)]
pub extern "C" fn ph_cues_to_labels(
    chunk: &[u8],
    rate: u32,
    text: &mut [u8],
    count: &mut usize,
) -> u32
    ensures { PhCuesToLabelsPromise chunk.now rate text.old count.old
        result text.new count.new }
{
    counted(label_cues::cues_to_labels(chunk, rate, text), count)
}
