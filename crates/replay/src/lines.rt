// How an answer is written: a label, the number, then floats or frames.
ghost use Rattle.std.specs.Prelude.{◌≡◌, min, length};

use numbers::Refusal;

pub fn slots(rt: &impl Print, label: &[u8], xs: &[f64]) {
    run_show::words(rt, label);
    run_show::floats(rt, xs);
    run_show::end(rt);
}

pub fn floats(rt: &impl Print, label: &[u8], answer: Result<(), Refusal>, xs: &[f64]) {
    run_show::words(rt, label);
    run_show::outcome(rt, &answer);
    run_show::floats(rt, xs);
    run_show::end(rt);
}

// the frames that were listed, none where the answer refuses
pub fn frames(rt: &impl Print, label: &[u8], answer: Result<usize, Refusal>, list: &[u32]) {
    run_show::words(rt, label);
    run_show::outcome(rt, &answer);
    run_show::smalls(rt, first(list, answer.unwrap_or(0)));
    run_show::end(rt);
}

// The first so many entries of a list that has them.
pub fn first(list: &[u32], count: usize) -> &[u32]
    ensures { length result.now ≡ min count (length list.now) }
{
    &list[..count.min(list.len())]
}
