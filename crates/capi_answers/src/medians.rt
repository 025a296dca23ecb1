// An answer of `median_of` or `mad_of`, handed over.
ghost use Rattle.median.specs.Answers.{median_says};
ghost use Rattle.capi_answers.specs.Medians.{ValueHanded};

use numbers::Refusal;

// Inner: stores the value unless the call refused, and answers its number.
pub fn told(answer: Result<f64, Refusal>, value: &mut f64) -> u32
    ensures { ValueHanded (median_says answer) value.old result value.new }
{
    match answer {
        Ok(median) => {
            *value = median;
            0
        }
        Err(refusal) => refusal.number(),
    }
}
