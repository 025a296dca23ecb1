// The options of a call, from the numbers that C hands over.
ghost use Rattle.std.specs.Prelude.{◌≡◌};
ghost use Rattle.capi.specs.Choices.{chosen_options};

use options::TempoOpts;

// Inner: the options with these bounds and this meter, in the record's order.
pub fn chosen(min_bpm: f64, max_bpm: f64, meter: usize) -> TempoOpts
    ensures { result ≡ chosen_options min_bpm max_bpm meter }
{
    TempoOpts::between(min_bpm, max_bpm).with_meter(meter)
}
