// The maker for C and Rust: slices as a pointer and a length, and the answer as five numbers.
#![tactic(auto)]

ghost use Rattle.std.specs.Prelude.{◌≡◌, []};
ghost use Rattle.sets.specs.Lists.{covered};
ghost use Rattle.lalr.specs.ComputedGenerator.{generated};
ghost use Rattle.generator.specs.Answer.{numbers};
ghost use Rattle.generator_c.specs.Out.{WritesOut};

use generator::Refusal;

fn five(answer: Result<(), Refusal>) -> [u64; 5]
    ensures { result ≡ covered 5 (numbers answer) [] }
{
    generator::numbers(answer).map(u64::from)
}

#[unsafe(no_mangle)]
pub extern "C" fn sidumza_generate(
    card: &[u16],
    table: &mut [u16],
    words: &mut [u64],
    halves: &mut [u32],
    out: &mut [u64; 5],
)
    ensures { WritesOut (generated table.old words.old halves.old card.now) out.new table.new words.new halves.new }
{
    *out = five(generator::generate(card, table, words, halves));
}
