// Merging of cards for C and Rust: slices as a pointer and a length, and the answer as three numbers.
#![tactic(auto)]

ghost use Rattle.std.specs.Prelude.{◌≡◌, []};
ghost use Rattle.sets.specs.Lists.{covered};
ghost use Rattle.merge.specs.Answer.{answer_numbers};
ghost use Rattle.merge_c.specs.Out.{WritesOut};

use merge::Refusal;

fn three(answer: Result<u16, Refusal>) -> [u64; 3]
    ensures { result ≡ covered 3 (answer_numbers answer) [] }
{
    merge::numbers(answer).map(u64::from)
}

#[unsafe(no_mangle)]
pub extern "C" fn sidumza_merge(
    first: &[u16],
    second: &[u16],
    merged: &mut [u16],
    out: &mut [u64; 3],
)
    ensures { WritesOut first.now second.now merged.old out.new merged.new }
{
    *out = three(merge::merge(first, second, merged));
}
