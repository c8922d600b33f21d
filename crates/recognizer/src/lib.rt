// Makes the table of a card and reads an input with it.
#![tactic(auto)]

ghost use Rattle.std.specs.Prelude.{◌≡◌};
ghost use Rattle.recognizer.specs.declared.Refusal.TheVariants.{NoTable, Refused};
ghost use Rattle.recognizer.specs.Outcome.{Recognizes, RecognizesRestricted};

use parser::Reading;

// The maker's refusal, or the reader's with the table made.
#[derive(Clone, Copy)]
pub enum Refusal {
    NoTable(generator::Refusal),
    Refused(table_checks::Refusal),
}

impl From<generator::Refusal> for Refusal {
    ghost from_gives = { λ e r. r ≡ NoTable e };

    fn from(e: generator::Refusal) -> Refusal {
        Refusal::NoTable(e)
    }
}

impl From<table_checks::Refusal> for Refusal {
    ghost from_gives = { λ e r. r ≡ Refused e };

    fn from(e: table_checks::Refusal) -> Refusal {
        Refusal::Refused(e)
    }
}

// Every card, input, step limit and area is answered, and what is answered of the input is what the grammar says.
pub fn recognize(
    card: &[u16],
    input: &[u8],
    step_limit: u64,
    table: &mut [u16],
    words: &mut [u64],
    halves: &mut [u32],
    stack: &mut [u16],
    list: &mut [u16],
    second: &mut [u16],
) -> Result<Reading, Refusal>
    ensures { Recognizes card.now input.now step_limit table.old words.old halves.old stack.old list.old second.old result table.new words.new halves.new stack.new list.new second.new }
{
    recognize_restricted(
        card, input, 0, step_limit, table, words, halves, stack, list, second,
    )
}

// The same for a choir: the reading is restricted by a word of closed terminals.
pub fn recognize_restricted(
    card: &[u16],
    input: &[u8],
    closed: u64,
    step_limit: u64,
    table: &mut [u16],
    words: &mut [u64],
    halves: &mut [u32],
    stack: &mut [u16],
    list: &mut [u16],
    second: &mut [u16],
) -> Result<Reading, Refusal>
    ensures { RecognizesRestricted card.now input.now «closed» step_limit table.old words.old halves.old stack.old list.old second.old result table.new words.new halves.new stack.new list.new second.new }
{
    generator::generate(card, table, words, halves)?;
    Ok(parser::parse_restricted(table, input, closed, stack, list, second, step_limit)?)
}
