// Makes the parse table of a grammar card, or refuses it.
#![tactic(auto)]

ghost use Rattle.std.specs.Prelude.{◌≡◌, [], ◌≤◌, ◌<◌, length};
ghost use Rattle.sets.specs.Lists.{covered};
ghost use Rattle.grammar.specs.Card.{form_fault, grammar_of};
ghost use Rattle.areas.specs.Areas.{words_size};
ghost use Rattle.transitions.specs.Next.{next_of, Numbered};
ghost use Rattle.transitions.specs.Data.{Data};
ghost use Rattle.card_checks.specs.Checked.{refusal_numbers};
ghost use Rattle.lalr.specs.ComputedGenerator.{generated};
ghost use Rattle.lalr.specs.Meaning.{AllUseful};
ghost use Rattle.lalr.specs.Demand2.{Room};
ghost use Rattle.generator.specs.declared.Refusal.TheVariants.{Card};
ghost use Rattle.generator.specs.declared.Refusal.TheVariants as declared;
ghost use Rattle.generator.specs.Answer.{numbers as answer_numbers, GeneratesAs};
ghost use Rattle.generator.specs.Phases.{Cleared, Complete};

use lookaheads::Conflict;
use relations::Relation;

// What the maker refuses; `numbers` gives the paper's number and values of each.
#[derive(Clone, Copy)]
pub enum Refusal {
    TableShort,
    WordsShort,
    HalvesShort,
    Card(card_checks::Refusal),
    ManyStates,
    ManyTransitions,
    // The state, the terminal and the two lowest values that meet.
    Conflict(Conflict),
}

impl From<card_checks::Refusal> for Refusal {
    ghost from_gives = { λ e r. r ≡ Card e };

    fn from(e: card_checks::Refusal) -> Refusal {
        Refusal::Card(e)
    }
}

impl From<Conflict> for Refusal {
    ghost from_gives = { λ e r. r ≡ declared.Conflict e };

    fn from(e: Conflict) -> Refusal {
        Refusal::Conflict(e)
    }
}

// The number and value of a refusal of the card, and zeros behind them.
fn of_card(e: card_checks::Refusal) -> [u16; 5]
    ensures { result ≡ covered 5 (refusal_numbers e) [] }
{
    let n = card_checks::numbers(e);
    [n[0], n[1], 0, 0, 0]
}

// The paper's number and values of an answer, and zeros behind them; 0 stands for a table.
#[tactic(auto, unfolding(sets::specs::Lists::covered))]
pub fn numbers(answer: Result<(), Refusal>) -> [u16; 5]
    ensures { result ≡ covered 5 (answer_numbers answer) [] }
{
    let refusal = match answer {
        Ok(()) => return [0, 0, 0, 0, 0],
        Err(refusal) => refusal,
    };
    match refusal {
        Refusal::TableShort => [1, 0, 0, 0, 0],
        Refusal::WordsShort => [2, 0, 0, 0, 0],
        Refusal::HalvesShort => [3, 0, 0, 0, 0],
        Refusal::Card(e) => of_card(e),
        Refusal::ManyStates => [11, 0, 0, 0, 0],
        Refusal::ManyTransitions => [12, 0, 0, 0, 0],
        Refusal::Conflict(e) => [13, e.state, e.terminal, e.lower, e.upper],
    }
}

// Zeros all three areas over the lengths given.
fn clear(t: &mut [u16], z: &mut [u64], w: &mut [u32])
    requires { Room t.old z.old w.old }
    ensures { Cleared t.old z.old w.old t.new z.new w.new }
{
    t[..areas::TABLE].fill(0);
    z[..areas::WORDS].fill(0);
    w[..areas::HALVES].fill(0);
}

// Direct reads, the walk along reads, then along includes.
fn walk(c: &[u16], t: &[u16], w: &[u32], z: &mut [u64], n: u32, k: u32)
    requires { Numbered c.now n (next_of c.now t.now n) × (words_size ≤ length z.old) × Data c.now w.now n k (next_of c.now t.now n) }
    ensures { Complete c.now w.now n k (next_of c.now t.now n) z.old z.new }
{
    transition_lists::direct(c, t, w, z, n, k);
    let nodes = k as usize;
    digraph::complete(Relation::Reads, c, w, z, nodes);
    digraph::complete(Relation::Includes, c, w, z, nodes);
}

// The table of a card to which none of the refusals 1 to 10 applies, or refusal 11, 12 or 13.
fn make(c: &[u16], t: &mut [u16], z: &mut [u64], w: &mut [u32]) -> Result<(), Refusal>
    requires { (form_fault c.now ≡ 0) × AllUseful (grammar_of c.now) × Room t.old z.old w.old }
    ensures { GeneratesAs (generated t.old z.old w.old c.now) result t.new z.new w.new }
{
    let Some(n) = states::states(c, t, z, w) else {
        clear(t, z, w);
        return Err(Refusal::ManyStates);
    };
    let e = nonterminals::shortest(c);
    let k = transition_lists::build(c, t, w, n as u32, &e);
    if transitions::LIMIT < k {
        clear(t, z, w);
        return Err(Refusal::ManyTransitions);
    }
    walk(c, t, w, z, n as u32, k);
    lookaheads::fill(c, t, w, z, n as u16)?;
    Ok(())
}

// Makes the table of a card in the table area. Every input is answered, and refusals 1 to 10 change no area.
pub fn generate(
    card: &[u16],
    table: &mut [u16],
    words: &mut [u64],
    halves: &mut [u32],
) -> Result<(), Refusal>
    ensures { GeneratesAs (generated table.old words.old halves.old card.now) result table.new words.new halves.new }
{
    if table.len() < areas::TABLE {
        return Err(Refusal::TableShort);
    }
    if words.len() < areas::WORDS {
        return Err(Refusal::WordsShort);
    }
    if halves.len() < areas::HALVES {
        return Err(Refusal::HalvesShort);
    }
    card_checks::check(card)?;
    make(card, table, words, halves)
}
