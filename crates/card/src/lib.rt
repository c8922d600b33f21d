// The grammar card: its numbers, each with an answer for every slice, and the first refusal of its form.
#![tactic(auto)]

ghost use Rattle.std.specs.Prelude.{◌≡◌, ◌+◌, ◌<◌, ◌≤◌, ◌^◌, min, eqb, length, get_or};
ghost use Rattle.sets.specs.Bit.{Tells};
ghost use Rattle.grammar.specs.Card.{terminals as terminals_of, nonterminals as nonterminals_of, productions as productions_of, symbols as symbols_of, symbols_at, left_of, length_of, symbol_of, start_of, is_nonterminal, is_symbol, sizes_ok, lefts_ok, form_fault};
ghost use Rattle.card.specs.Fault.{fault_number};
ghost use Rattle.card.specs.Pass.{BadSymbol, After, SymbolsThere, Sized};

// The number at place i, and 0 past the end.
pub fn at(s: &[u16], i: usize) -> u16
    ensures { result ≡ get_or s.now i 0 }
{
    s.get(i).copied().unwrap_or(0)
}

// T, N, P and L.
#[tactic(auto, unfolding(grammar::specs::Card::terminals))]
pub fn terminals(c: &[u16]) -> u16
    ensures { result ≡ terminals_of c.now }
{
    at(c, 0)
}

#[tactic(auto, unfolding(grammar::specs::Card::nonterminals))]
pub fn nonterminals(c: &[u16]) -> u16
    ensures { result ≡ nonterminals_of c.now }
{
    at(c, 1)
}

#[tactic(auto, unfolding(grammar::specs::Card::productions))]
pub fn productions(c: &[u16]) -> u16
    ensures { result ≡ productions_of c.now }
{
    at(c, 2)
}

#[tactic(auto, unfolding(grammar::specs::Card::symbols))]
pub fn symbols(c: &[u16]) -> u16
    ensures { result ≡ symbols_of c.now }
{
    at(c, 3)
}

// The left side of production r, and the length of its right side.
#[tactic(auto, unfolding(grammar::specs::Card::left_of))]
pub fn left(c: &[u16], r: u16) -> u16
    ensures { result ≡ left_of c.now r }
{
    at(c, 4 + usize::from(r))
}

#[tactic(auto, unfolding(grammar::specs::Card::length_of))]
pub fn length(c: &[u16], r: u16) -> u16
    ensures { result ≡ length_of c.now r }
{
    at(c, 4 + usize::from(productions(c)) + usize::from(r))
}

// Where the symbols of all right sides begin.
pub fn symbols_at(c: &[u16]) -> usize
    ensures { (result ≡ symbols_at c.now) × (result < 2 ^ 18) }
{
    4 + 2 * usize::from(productions(c))
}

// The k-th symbol of all right sides.
#[tactic(auto, unfolding(grammar::specs::Card::symbol_of))]
pub fn symbol(c: &[u16], k: u32) -> u16
    ensures { result ≡ symbol_of c.now k }
{
    at(c, symbols_at(c) + k as usize)
}

// Where the symbols of production r begin, counted from 0.
#[tactic(auto, unfolding(grammar::specs::Card::start_of))]
pub fn start(c: &[u16], r: u16) -> u32
    ensures { result ≡ start_of c.now r }
{
    let mut s: u32 = 0;
    for i in 0..r {
        s += u32::from(length(c, i));
    }
    s
}

#[tactic(auto, unfolding(grammar::specs::Card::sizes_ok, sets::specs::Tests::between))]
fn sizes_ok(c: &[u16]) -> bool
    ensures { result ≡ sizes_ok c.now }
{
    (1..=64).contains(&terminals(c))
        && (1..=60).contains(&nonterminals(c))
        && (1..=128).contains(&productions(c))
        && symbols(c) <= 512
}

// Whether the card is as long as its sizes say.
fn length_ok(c: &[u16]) -> bool
    ensures { result ≡ eqb (length c.now) (symbols_at c.now + symbols_of c.now) }
{
    c.len() == symbols_at(c) + usize::from(symbols(c))
}

#[tactic(auto, unfolding(grammar::specs::Card::is_nonterminal))]
pub fn is_nonterminal(c: &[u16], x: u16) -> bool
    ensures { result ≡ is_nonterminal c.now x }
{
    let end = u32::from(terminals(c)) + u32::from(nonterminals(c));
    terminals(c) <= x && u32::from(x) < end
}

#[tactic(auto, unfolding(grammar::specs::Card::is_symbol))]
fn is_symbol(c: &[u16], x: u16) -> bool
    ensures { result ≡ is_symbol c.now x }
{
    let end = u32::from(terminals(c)) + u32::from(nonterminals(c));
    0 < x && u32::from(x) < end
}

fn lefts_ok(c: &[u16]) -> bool
    ensures { result ≡ lefts_ok c.now }
{
    (0..productions(c)).all(|r| is_nonterminal(c, left(c, r)))
}

// What the pass over the productions holds after some of them: the sum of their lengths, and whether one of that
// many first symbols, as far as L goes, is one that 9 refuses.
#[derive(Clone, Copy)]
struct PassState {
    sum: usize,
    fault: bool,
}

// Whether one of the symbols from a on and before b, all of them in the card, is one that 9 refuses.
fn bad_symbol(c: &[u16], a: usize, b: usize) -> bool
    requires { symbols_at c.now + b ≤ length c.now }
    ensures { Tells result (BadSymbol c.now a b) }
{
    let first = symbols_at(c);
    (a..b).any(|k| !is_symbol(c, c[first + k]))
}

// The number of the first n symbols, as far as L goes.
fn as_far(c: &[u16], n: usize) -> usize
    ensures { result ≡ min n (symbols_of c.now) }
{
    n.min(usize::from(symbols(c)))
}

// The step of the pass: production r after those before it. Behind a fault no symbol has to be looked at.
fn pass_one(c: &[u16], r: u16, p: PassState) -> PassState
    requires { After c.now r p × SymbolsThere c.now }
    ensures { After c.now (r + 1) result }
{
    let sum = p.sum + usize::from(length(c, r));
    let fault = p.fault || bad_symbol(c, p.sum, as_far(c, sum));
    PassState { sum, fault }
}

// The whole pass.
fn pass(c: &[u16]) -> PassState
    requires { SymbolsThere c.now }
    ensures { After c.now (productions_of c.now) result }
{
    let mut p = PassState {
        sum: 0,
        fault: false,
    };
    for r in 0..productions(c) {
        p = pass_one(c, r, p);
    }
    p
}

// What is wrong with the form of a card: the refusals 4 to 9.
#[derive(Clone, Copy)]
pub enum Fault {
    Short,
    Sizes,
    Length,
    Left,
    Sum,
    Symbol,
}

// The first of the faults of the sides that applies, where none of those before them does. `Sum` and `Symbol` are read off
// what the pass holds at its end.
fn sides_fault(c: &[u16]) -> Result<(), Fault>
    requires { Sized c.now }
    ensures { fault_number result ≡ form_fault c.now }
{
    if !lefts_ok(c) {
        return Err(Fault::Left);
    }
    let end = pass(c);
    if end.sum != usize::from(symbols(c)) {
        return Err(Fault::Sum);
    }
    if end.fault {
        return Err(Fault::Symbol);
    }
    Ok(())
}

// The first of the faults that applies.
pub fn form_fault(c: &[u16]) -> Result<(), Fault>
    ensures { fault_number result ≡ form_fault c.now }
{
    if c.len() < 4 {
        return Err(Fault::Short);
    }
    if !sizes_ok(c) {
        return Err(Fault::Sizes);
    }
    if !length_ok(c) {
        return Err(Fault::Length);
    }
    sides_fault(c)
}
