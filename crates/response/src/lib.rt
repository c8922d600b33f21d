// What is printed of a card: its table, in one of two forms, or the line of its refusal.
#![tactic(auto)]

ghost use Rattle.std.specs.Prelude.{◌≡◌, List, ℕ, ◌≤◌, length, take};
ghost use Rattle.card_input.specs.Reading.{Came};
ghost use Rattle.decimal.specs.Page.{page_of, page, Used};
ghost use Rattle.generator.specs.Answer.{numbers};
ghost use Rattle.lalr.specs.ComputedGenerator.{generated};
ghost use Rattle.listing.specs.Listing.{refusal_text};
ghost use Rattle.response.specs.Printed.{Answers};
ghost use Rattle.response.specs.Response.{table_in, room_of, response_text, card_text, RepliesAs};

use card_input::{Input, ReadFailed};
use generator::Refusal;

// How a table is printed: line by line, or on pages.
#[derive(Clone, Copy)]
pub enum Form {
    Listing,
    Pages,
}

// How many numbers a refusal has: its own, and behind it one where a nonterminal is useless, four where actions meet.
fn count(refused: Refusal) -> usize
    ensures { result ≡ length (numbers (Err refused)) }
{
    match refused {
        Refusal::Card(card_checks::Refusal::Useless(_)) => 2,
        Refusal::Conflict(_) => 5,
        _ => 1,
    }
}

// The line of a refusal, from the front of the buffer.
fn refusal(out: &mut [u8], refused: Refusal) -> usize
    ensures result_after { page_of out.new result ≡ page out.old (refusal_text (numbers (Err refused))) }
    ensures used { Used result out.new }
{
    let n = generator::numbers(Err(refused));
    listing::refusal(out, &n[..count(refused)])
}

// A table in a form, from the front of the buffer.
fn table(out: &mut [u8], form: Form, t: &[u16]) -> usize
    ensures result_after { page_of out.new result ≡ page out.old (table_in form t.now) }
    ensures used { Used result out.new }
{
    match form {
        Form::Listing => listing::table(out, t),
        Form::Pages => pages::table(out, t),
    }
}

// The text of an answer, from the front of the buffer: the table, or the line of the refusal.
fn respond(out: &mut [u8], form: Form, answer: Result<(), Refusal>, t: &[u16]) -> usize
    ensures result_after { page_of out.new result ≡ page out.old (response_text form (numbers answer) t.now) }
    ensures used { Used result out.new }
{
    match answer {
        Ok(()) => table(out, form, t),
        Err(refused) => refusal(out, refused),
    }
}

// Makes the table of a card in the area and writes the text of the answer.
fn reply(
    card: &[u16],
    form: Form,
    table: &mut [u16],
    words: &mut [u64],
    halves: &mut [u32],
    out: &mut [u8],
) -> usize
    ensures replies_as { RepliesAs form (generated table.old words.old halves.old card.now) out.old out.new result table.new words.new halves.new }
    ensures used { Used result out.new }
{
    let answer = generator::generate(card, table, words, halves);
    respond(out, form, answer, table)
}

// The text of a card, in a buffer that is long enough.
fn text(card: &[u16], form: Form, out: &mut [u8]) -> usize
    ensures out_after { room_of form ≤ length out.old → take result out.new ≡ card_text form card.now }
    ensures used { Used result out.new }
{
    let mut table = [0u16; areas::TABLE];
    let mut words = [0u64; areas::WORDS];
    let mut halves = [0u32; areas::HALVES];
    reply(card, form, &mut table, &mut words, &mut halves, out)
}

// The text for what was read, whatever bytes it was, in a buffer that is long enough.
pub fn answer(card: &[u16; card_input::CARD], input: Input, form: Form, out: &mut [u8]) -> usize
    requires { (bs : List ℕ) × Came bs card.now input }
    ensures by_index { (bs : List ℕ) → Came bs card.now input → room_of form ≤ length out.old → Answers form bs input (take result out.new) }
    ensures used { Used result out.new }
{
    match input {
        Ok(Some(n)) => text(&card[..n], form, out),
        Ok(None) => listing::not_a_card(out),
        Err(ReadFailed) => 0,
    }
}
