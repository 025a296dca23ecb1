// An answer of `bar_beat_at`, handed over.
ghost use Rattle.bars.specs.BarBeats.{bar_beat_says};
ghost use Rattle.capi_answers.specs.Grids.{Placed};

use bars::BarBeat;

// Inner: stores the kind of a place, and its values, zeros for nowhere.
pub fn put_place(place: BarBeat, found: &mut u32, bar: &mut usize, beat: &mut usize) -> u32
    ensures { Placed (bar_beat_says place) result found.new bar.new beat.new }
{
    match place {
        BarBeat::Nowhere => {
            *found = 0;
            *bar = 0;
            *beat = 0;
            0
        }
        BarBeat::At {
            bar: in_bar,
            beat: at_beat,
        } => {
            *found = 1;
            *bar = in_bar;
            *beat = at_beat;
            0
        }
    }
}
