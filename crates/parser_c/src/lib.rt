// The reader for C and Rust: slices as a pointer and a length, and the answer as seven numbers.
#![tactic(auto)]

ghost use Rattle.std.specs.Prelude.{◌≡◌, ◌∷◌, []};
ghost use Rattle.sets.specs.Bit.{Lowest};
ghost use Rattle.machine.specs.ComputedRun.{reading, restricted_reading};
ghost use Rattle.table_checks.specs.Verdict.{refusal_number};
ghost use Rattle.parser.specs.Answer.{counts_of, reading_numbers, numbers};
ghost use Rattle.parser.specs.Terminals.{Lists};
ghost use Rattle.parser_c.specs.Out.{padded, WritesOut};

use parser::{Counts, Reading};
use table_checks::Refusal;

#[tactic(auto, unfolding(sets::specs::Lists::covered))]
fn end(n: u64, c: Counts) -> [u64; 7]
    ensures { result ≡ padded (n ∷ counts_of c) }
{
    [n, c.steps, c.depth as u64, c.listed as u64, 0, 0, 0]
}

fn number(e: Refusal) -> u64
    ensures { result ≡ refusal_number e }
{
    match e {
        Refusal::TableShort => 21,
        Refusal::SizesWrong => 22,
        Refusal::ProductionWrong => 23,
        Refusal::CellWrong => 24,
        Refusal::EntryWrong => 44,
        Refusal::InputLong => 25,
        Refusal::TerminalWrong => 26,
        Refusal::NoStack => 27,
        Refusal::SecondShort => 45,
        Refusal::ClosedWrong => 50,
    }
}

#[tactic(auto, unfolding(sets::specs::Lists::covered))]
fn read(r: Reading) -> [u64; 7]
    ensures { result ≡ padded (reading_numbers r) }
{
    match r {
        Reading::Accepted(c) => end(0, c),
        Reading::NoAction {
            position,
            expected,
            size,
            counts,
        } => [
            31,
            counts.steps,
            counts.depth as u64,
            counts.listed as u64,
            position as u64,
            expected,
            size as u64,
        ],
        Reading::ExpectedUnknown { position, counts } => [
            46,
            counts.steps,
            counts.depth as u64,
            counts.listed as u64,
            position as u64,
            0,
            0,
        ],
        Reading::StepLimit(c) => end(32, c),
        Reading::StackFull(c) => end(33, c),
        Reading::ListFull(c) => end(34, c),
        Reading::Broken(c) => end(35, c),
    }
}

#[tactic(auto, unfolding(sets::specs::Lists::covered))]
fn seven(a: Result<Reading, Refusal>) -> [u64; 7]
    ensures { result ≡ padded (numbers a) }
{
    match a {
        Ok(r) => read(r),
        Err(e) => [number(e), 0, 0, 0, 0, 0, 0],
    }
}

#[tactic(auto, using(machine::proofs::RestrictedLaws::restricted_none))]
#[unsafe(no_mangle)]
pub extern "C" fn sidumza_parse(
    table: &[u16],
    input: &[u8],
    stack: &mut [u16],
    list: &mut [u16],
    second: &mut [u16],
    step_limit: u64,
    out: &mut [u64; 7],
)
    ensures { WritesOut (reading table.now input.now stack.old list.old second.old step_limit) out.new stack.new list.new second.new }
{
    sidumza_parse_restricted(table, input, 0, stack, list, second, step_limit, out);
}

#[unsafe(no_mangle)]
pub extern "C" fn sidumza_parse_restricted(
    table: &[u16],
    input: &[u8],
    closed: u64,
    stack: &mut [u16],
    list: &mut [u16],
    second: &mut [u16],
    step_limit: u64,
    out: &mut [u64; 7],
)
    ensures { WritesOut (restricted_reading table.now closed input.now stack.old list.old second.old step_limit) out.new stack.new list.new second.new }
{
    let a = parser::parse_restricted(table, input, closed, stack, list, second, step_limit);
    *out = seven(a);
}

// The lowest terminal of an expected set; 64 where it is empty.
#[unsafe(no_mangle)]
pub extern "C" fn sidumza_lowest(expected: u64) -> u32
    ensures { Lowest 64 expected result }
{
    sets::lowest(expected)
}

// The terminals of an expected set, ascending, with zeros after them; the result is how many they are.
#[unsafe(no_mangle)]
pub extern "C" fn sidumza_terminals(expected: u64, out: &mut [u8; 64]) -> usize
    ensures { Lists expected result out.new }
{
    parser::terminals(expected, out)
}
