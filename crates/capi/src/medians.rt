// `median_of` and `mad_of`, for C.
ghost use Rattle.capi.specs.Medians.{PhMedianPromise, PhMadPromise};

use capi_answers::medians::told;

// `median::median_of`, for C.
#[unsafe(no_mangle)]
pub extern "C" fn ph_median_of(values: &[f64], work: &mut [f64], median: &mut f64) -> u32
    ensures { PhMedianPromise values.now work.old median.old
        result work.new median.new }
{
    told(median::median_of(values, work), median)
}

// `median::mad_of`, for C.
#[unsafe(no_mangle)]
pub extern "C" fn ph_mad_of(values: &[f64], median: f64, work: &mut [f64], mad: &mut f64) -> u32
    ensures { PhMadPromise values.now median work.old mad.old
        result work.new mad.new }
{
    told(median::mad_of(values, median, work), mad)
}
