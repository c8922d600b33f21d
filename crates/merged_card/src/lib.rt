// The card that two cards are merged into: a new start, the nonterminals of the first, those of the second; two productions from the new
// start to the old starts, then the productions of both.
#![tactic(auto)]

ghost use Rattle.std.specs.Prelude.{◌≡◌, [], ◌∷◌, ◌++◌, ◌+◌, ◌<◌, ◌≤◌, length, drop};
ghost use Rattle.sets.specs.Lists.{each};
ghost use Rattle.grammar.specs.Card.{nonterminals as nonterminals_of, sizes_ok, form_fault};
ghost use Rattle.merged_card.specs.Merged.{moved as moved_by, merged_card, merged_sizes, merged_lefts, merged_lengths, merged_symbols};
ghost use Rattle.merged_card.specs.Writing.{written, number_of, array_numbers, left_part, length_part, symbol_part, Narrow, Inside, Gives, SizesOf, Alike, Merging};

// The symbol x of a card with t terminals: a nonterminal moves up by k.
#[tactic(auto, unfolding(crate::specs::Merged::moved))]
fn moved(t: u16, k: u16, x: u16) -> u16
    requires { x + k < 65536 }
    ensures { result ≡ moved_by t k x }
{
    if x < t { x } else { x + k }
}

// The numbers of a card from a place on, so many, and by how much their nonterminals move.
#[derive(Clone, Copy)]
struct Part {
    from: usize,
    count: usize,
    by: u16,
}

// Writes a part of the card c from place i on.
#[tactic(auto, using(crate::proofs::WritingLaws::written_none))]
fn transfer(c: &[u16], p: Part, t: u16, out: &mut [u16], i: usize)
    requires { (p.from + p.count ≤ length c.now) × (i + p.count ≤ length out.old) × Narrow c.now p }
    ensures { out.new ≡ written i (each p.count (λ j. number_of c.now t p j ∷ [])) out.old }
{
    for j in 0..p.count {
        out[i + j] = moved(t, p.by, c[p.from + j]);
    }
}

// An array of the merged card: what it has for the two new productions, and the parts of both cards.
#[derive(Clone, Copy)]
struct Pieces {
    x: u16,
    y: u16,
    first: Part,
    second: Part,
}

// Writes an array of the merged card from place i on; gives the place behind it.
fn array(a: &[u16], b: &[u16], s: Pieces, t: u16, out: &mut [u16], i: usize) -> usize
    requires { Inside a.now b.now s × (i + length (array_numbers a.now b.now t s) ≤ length out.old) }
    ensures { (result ≡ i + length (array_numbers a.now b.now t s)) × (out.new ≡ written i (array_numbers a.now b.now t s) out.old) }
{
    let p = s.first;
    let q = s.second;
    let j = i + 2 + p.count;
    let end = j + q.count;
    out[i] = s.x;
    out[i + 1] = s.y;
    transfer(a, p, t, out, i + 2);
    transfer(b, q, t, out, j);
    end
}

// By how much the second card's nonterminals move up: behind the new start and the first card's.
#[tactic(auto, using(crate::proofs::PartLaws::nonterminals_to_60))]
fn behind(a: &[u16]) -> u16
    requires { form_fault a.now ≡ 0 }
    ensures { result ≡ 1 + nonterminals_of a.now }
{
    1 + card::nonterminals(a)
}

// The left sides of a card, to move up by k.
fn left_part(c: &[u16], k: u16) -> Part
    ensures { result ≡ left_part c.now k }
{
    Part {
        from: 4,
        count: usize::from(card::productions(c)),
        by: k,
    }
}

// The lengths of its right sides, which do not move.
fn length_part(c: &[u16]) -> Part
    ensures { result ≡ length_part c.now }
{
    let count = usize::from(card::productions(c));
    Part {
        from: 4 + count,
        count,
        by: 0,
    }
}

// The symbols of its right sides, to move up by k.
fn symbol_part(c: &[u16], k: u16) -> Part
    ensures { result ≡ symbol_part c.now k }
{
    Part {
        from: card::symbols_at(c),
        count: usize::from(card::symbols(c)),
        by: k,
    }
}

// The left sides: the new start twice, then those of both cards.
fn lefts(a: &[u16], b: &[u16]) -> Pieces
    requires { Alike a.now b.now }
    ensures { Gives a.now b.now result (merged_lefts a.now b.now) }
{
    let t = card::terminals(a);
    let k = behind(a);
    Pieces {
        x: t,
        y: t,
        first: left_part(a, 1),
        second: left_part(b, k),
    }
}

// The lengths: 1 twice, then those of both cards.
fn lengths(a: &[u16], b: &[u16]) -> Pieces
    requires { Alike a.now b.now }
    ensures { Gives a.now b.now result (merged_lengths a.now b.now) }
{
    Pieces {
        x: 1,
        y: 1,
        first: length_part(a),
        second: length_part(b),
    }
}

// The symbols of the right sides: the old starts, then those of both cards.
#[tactic(auto, using(crate::proofs::PartLaws::first_limits))]
fn rights(a: &[u16], b: &[u16]) -> Pieces
    requires { Alike a.now b.now }
    ensures { Gives a.now b.now result (merged_symbols a.now b.now) }
{
    let t = card::terminals(a);
    let k = behind(a);
    Pieces {
        x: t + 1,
        y: t + k,
        first: symbol_part(a, 1),
        second: symbol_part(b, k),
    }
}

// N, P and L of the merged card.
#[derive(Clone, Copy)]
struct Sizes {
    n: u16,
    p: u16,
    l: u16,
}

// Adds them up from both cards.
#[tactic(auto, using(crate::proofs::PartLaws::first_limits, crate::proofs::PartLaws::second_limits))]
fn sums(a: &[u16], b: &[u16]) -> Sizes
    requires { Alike a.now b.now }
    ensures { SizesOf a.now b.now result }
{
    let n = 1 + card::nonterminals(a) + card::nonterminals(b);
    let p = 2 + card::productions(a) + card::productions(b);
    let l = 2 + card::symbols(a) + card::symbols(b);
    Sizes { n, p, l }
}

// Writes the sizes of the merged card.
#[tactic(auto, using(crate::proofs::SizeLaws::sizes_written))]
fn header(a: &[u16], b: &[u16], out: &mut [u16])
    requires { Merging a.now b.now (length out.old) }
    ensures { out.new ≡ written 0 (merged_sizes a.now b.now) out.old }
{
    let s = sums(a, b);
    out[0] = card::terminals(a);
    out[1] = s.n;
    out[2] = s.p;
    out[3] = s.l;
}

// Writes the merged card.
pub fn write(a: &[u16], b: &[u16], out: &mut [u16])
    requires { Merging a.now b.now (length out.old) }
    ensures { out.new ≡ merged_card a.now b.now ++ drop (length (merged_card a.now b.now)) out.old }
{
    let t = card::terminals(a);
    header(a, b, out);
    let i = array(a, b, lefts(a, b), t, out, 4);
    let j = array(a, b, lengths(a, b), t, out, i);
    array(a, b, rights(a, b), t, out, j);
}

// Whether the sizes of the merged card are within the limits; T is that of both cards, which passed.
pub fn sizes_ok(a: &[u16], b: &[u16]) -> bool
    requires { Alike a.now b.now }
    ensures { result ≡ sizes_ok (merged_card a.now b.now) }
{
    let s = sums(a, b);
    (s.n <= 60) & ((s.p <= 128) & (s.l <= 512))
}
