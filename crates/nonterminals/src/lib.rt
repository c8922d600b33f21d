// The shortest lengths of a card's nonterminals; the productive and the reachable ones, each set one
// number with bit j for nonterminal T + j; and the lowest that is not both.
#![tactic(auto)]

ghost use Rattle.std.specs.Prelude.{◌≡◌, true, List, ℕ, ◌+◌, ◌≤◌, ◌<◌, get_or};
ghost use Rattle.grammar.specs.Card.{terminals, nonterminals, productions, symbols, left_of, right_of, symbol_of, start_of, grammar_of, form_fault};
ghost use Rattle.grammar.specs.Useful.{Productive, Reachable};
ghost use Rattle.grammar.specs.Shortest.{length_cap, ShortestLengths};
ghost use Rattle.nonterminals.specs.Sets.{NonterminalSet, FoundUseless};
ghost use Rattle.nonterminals.specs.Gathering.{Kind, Words, word_of, join_of, Lefts, Rights, needs_of, gives_of, Sound, Round, Settled};
ghost use Rattle.nonterminals.specs.Lessening.{count_of, total_of, Below, Witnessed, left_number, Lessened, LessenedDue, Due, DueBy, Lower};

// The symbol x as a set: a nonterminal's bit, and none for a terminal.
fn word(c: &[u16], x: u16) -> u64
    requires { (form_fault c.now ≡ 0) × (x < terminals c.now + nonterminals c.now) }
    ensures { result ≡ word_of c.now x }
{
    let first = card::terminals(c);
    if x < first { 0 } else { 1 << (x - first) }
}

// The left side of production r as a set.
fn left(c: &[u16], r: u16) -> u64
    requires { (form_fault c.now ≡ 0) × (r < productions c.now) }
    ensures { result ≡ word_of c.now (left_of c.now r) }
{
    word(c, card::left(c, r))
}

// The right side of production r, whose symbols begin at s, as a set.
fn right(c: &[u16], r: u16, s: u32) -> u64
    requires { (form_fault c.now ≡ 0) × (r < productions c.now) × (s ≡ start_of c.now r) }
    ensures { result ≡ join_of c.now (right_of c.now r) }
{
    let mut v: u64 = 0;
    for d in 0..card::length(c, r) {
        v |= word(c, card::symbol(c, s + u32::from(d)));
    }
    v
}

// The left side of each production as a set.
fn put_lefts(c: &[u16], v: &mut [u64; 128])
    requires { form_fault c.now ≡ 0 }
    ensures { Lefts c.now (productions c.now) v.new }
{
    for r in 0..card::productions(c) {
        v[usize::from(r)] = left(c, r);
    }
}

// The right side of each production as a set.
fn put_rights(c: &[u16], v: &mut [u64; 128])
    requires { form_fault c.now ≡ 0 }
    ensures { Rights c.now (productions c.now) v.new }
{
    let mut s: u32 = 0;
    for r in 0..card::productions(c) {
        v[usize::from(r)] = right(c, r, s);
        s += u32::from(card::length(c, r));
    }
}

// One production after the other adds to w: where w has what it needs, what it gives.
fn round(c: &[u16], needs: &[u64; 128], gives: &[u64; 128], w: u64) -> u64
    ghost kind: { Kind }
    requires { (form_fault c.now ≡ 0) × Words (needs_of c.now kind) (productions c.now) needs.now × Words (gives_of c.now kind) (productions c.now) gives.now × Sound c.now kind w }
    ensures { Round c.now kind w (productions c.now) result }
{
    let mut t = w;
    for r in 0..usize::from(card::productions(c)) {
        if needs[r] & t == needs[r] {
            t |= gives[r];
        }
    }
    t
}

// Rounds until nothing is new.
fn settled(c: &[u16], needs: &[u64; 128], gives: &[u64; 128], w: u64) -> u64
    ghost kind: { Kind }
    requires { (form_fault c.now ≡ 0) × Words (needs_of c.now kind) (productions c.now) needs.now × Words (gives_of c.now kind) (productions c.now) gives.now × Sound c.now kind w }
    ensures { Settled c.now kind w result }
{
    let mut t = w;
    loop {
        let u = round(c, needs, gives, t);
        if u == t {
            return t;
        }
        t = u;
    }
}

// The nonterminals that derive a string of terminals: where the right side does, the left side.
fn productive(c: &[u16], lefts: &[u64; 128], rights: &[u64; 128]) -> u64
    requires { (form_fault c.now ≡ 0) × Lefts c.now (productions c.now) lefts.now × Rights c.now (productions c.now) rights.now }
    ensures { NonterminalSet (grammar_of c.now) (Productive (grammar_of c.now)) result }
{
    settled(c, rights, lefts, 0)
}

// The nonterminals that are reached from the start, whose bit is 0: where the left side is, the right side.
fn reachable(c: &[u16], lefts: &[u64; 128], rights: &[u64; 128]) -> u64
    requires { (form_fault c.now ≡ 0) × Lefts c.now (productions c.now) lefts.now × Rights c.now (productions c.now) rights.now }
    ensures { NonterminalSet (grammar_of c.now) (Reachable (grammar_of c.now)) result }
{
    settled(c, lefts, rights, 1)
}

// The lowest nonterminal that is not reached or derives no string of terminals, where there is one.
pub fn useless(c: &[u16]) -> Option<u16>
    requires { form_fault c.now ≡ 0 }
    ensures { FoundUseless (grammar_of c.now) result }
{
    let mut lefts = [0u64; 128];
    let mut rights = [0u64; 128];
    put_lefts(c, &mut lefts);
    put_rights(c, &mut rights);
    let useful = productive(c, &lefts, &rights) & reachable(c, &lefts, &rights);
    let j = sets::lowest(!useful) as u16;
    if j < card::nonterminals(c) {
        Some(card::terminals(c) + j)
    } else {
        None
    }
}

// ---- the shortest lengths

// No nonterminal has this bit; in a word of nonterminals it stands for all productions.
const FIRST_ROUND: u64 = 1 << 63;

// What the k-th symbol of all right sides counts: 1 for a terminal, and for a nonterminal its length so far.
fn count(c: &[u16], e: &[u16; 60], k: u32) -> u32
    requires { (form_fault c.now ≡ 0) × (k < symbols c.now) × Witnessed c.now e.now }
    ensures { (result ≡ count_of c.now e.now (symbol_of c.now k)) × (result ≤ length_cap) }
{
    let x = card::symbol(c, k);
    let t = card::terminals(c);
    if x < t {
        return 1;
    }
    u32::from(e[usize::from(x - t)])
}

// The sum of the right side of production r, whose symbols begin at s, as far as it is below m.
fn total(c: &[u16], e: &[u16; 60], r: u16, s: u32, m: u32) -> u32
    requires { (form_fault c.now ≡ 0) × (r < productions c.now) × (s ≡ start_of c.now r) × Witnessed c.now e.now × (m ≤ length_cap) }
    ensures { Below (total_of c.now e.now (right_of c.now r)) m result }
{
    let mut v: u32 = 0;
    for d in 0..card::length(c, r) {
        if m <= v {
            return v;
        }
        v += count(c, e, s + u32::from(d));
    }
    v
}

// The number of the left side of production r.
fn left_number(c: &[u16], r: u16) -> usize
    requires { (form_fault c.now ≡ 0) × (r < productions c.now) }
    ensures { (result ≡ left_number c.now r) × (result < 60) }
{
    usize::from(card::left(c, r) - card::terminals(c))
}

// Whether production r is due by w, v being the right sides: w has a nonterminal of its right side, or is that of the first round.
fn due(v: &[u64; 128], r: u16, w: u64) -> bool
    requires { r < 128 }
    ensures { (c : List ℕ) (n : ℕ) → Rights c n v.now → r < n → Due c w r → result ≡ true }
{
    (v[usize::from(r)] | FIRST_ROUND) & w != 0
}

// Lessens the length of the left side of production r to the sum of its right side, where that is less. Gives the left side as
// a set where it was, and the empty set where it was not.
fn lessen(c: &[u16], e: &mut [u16; 60], r: u16, s: u32) -> u64
    requires { (form_fault c.now ≡ 0) × (r < productions c.now) × (s ≡ start_of c.now r) × Witnessed c.now e.old }
    ensures { Lessened c.now e.old r e.new result }
{
    let j = left_number(c, r);
    let m = u32::from(e[j]);
    let v = total(c, e, r, s, m);
    if v < m {
        e[j] = v as u16;
        return 1 << j;
    }
    0
}

// The same for a production that is due by w, v being the right sides; another lessens nothing.
fn lessen_due(c: &[u16], v: &[u64; 128], e: &mut [u16; 60], r: u16, s: u32, w: u64) -> u64
    requires { (form_fault c.now ≡ 0) × (r < productions c.now) × (s ≡ start_of c.now r) × Witnessed c.now e.old × Rights c.now (productions c.now) v.now }
    ensures { LessenedDue c.now e.old r w e.new result }
{
    if due(v, r, w) {
        return lessen(c, e, r, s);
    }
    0
}

// Where the symbols of the last production end.
pub fn end(c: &[u16]) -> u32
    requires { form_fault c.now ≡ 0 }
    ensures { result ≡ start_of c.now (productions c.now) }
{
    u32::from(card::symbols(c))
}

// Where the symbols of production r begin, if those of the next one begin at s.
pub fn start_before(c: &[u16], r: u16, s: u32) -> u32
    requires { s ≡ start_of c.now (r + 1) }
    ensures { result ≡ start_of c.now r }
{
    s - u32::from(card::length(c, r))
}

// A round, from the last production to the first: each that is due by w, or by what was lessened before it in this round, lessens the
// length of its left side. Gives the nonterminals whose lengths are less now.
fn lessen_all(c: &[u16], v: &[u64; 128], e: &mut [u16; 60], w: u64) -> u64
    requires { (form_fault c.now ≡ 0) × Rights c.now (productions c.now) v.now × DueBy c.now e.old w }
    ensures { DueBy c.now e.new result × Lower e.old e.new result }
{
    let mut u: u64 = 0;
    let mut s = end(c);
    for r in (0..card::productions(c)).rev() {
        s = start_before(c, r, s);
        u |= lessen_due(c, v, e, r, s, w | u);
    }
    u
}

// For each nonterminal the length of the shortest string of terminals that it derives; 65,535 for that much or more, and for none.
pub fn shortest(c: &[u16]) -> [u16; 60]
    requires { form_fault c.now ≡ 0 }
    ensures { ShortestLengths (grammar_of c.now) 60 (λ j. get_or result j 0) }
{
    let mut v = [0u64; 128];
    put_rights(c, &mut v);
    let mut e = [65535u16; 60];
    let mut w = FIRST_ROUND;
    loop {
        let u = lessen_all(c, &v, &mut e, w);
        if u == 0 {
            return e;
        }
        w = u;
    }
}
