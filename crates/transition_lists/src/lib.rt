// The nonterminal transitions of the table area, what the relations between them are read from, and their direct reads.
#![tactic(auto)]

ghost use Rattle.std.specs.Prelude.{◌≡◌, List, ℕ, ◌+◌, ◌<◌, ◌≤◌, length};
ghost use Rattle.grammar.specs.Card.{terminals, nonterminals, form_fault};
ghost use Rattle.areas.specs.Areas.{words_size, halves_size, row_of};
ghost use Rattle.transitions.specs.Places.{transition_limit};
ghost use Rattle.transitions.specs.Next.{next_of, Numbered};
ghost use Rattle.transitions.specs.Data.{Data, Built, Holds, Shifts, Begun};
ghost use Rattle.transition_lists.specs.Stores.{Noted, Placed, Celled};
ghost use Rattle.transition_lists.specs.Passes.{Passed, Come};
ghost use Rattle.transition_lists.specs.Words.{Joined, Ending, Copied};

// Where the row of state q begins in the table area.
fn row_at(c: &[u16], q: u32) -> usize
    requires { (form_fault c.now ≡ 0) × (q < 256) }
    ensures { (result ≡ row_of c.now q) × (result < 65536) }
{
    areas::row(c, q as usize)
}

// Notes at state v a transition by x from state q.
fn note(w: &mut [u32], q: u32, x: u32, v: u32)
    requires { (q < 256) × (v < 256) × (halves_size ≤ length w.old) }
    ensures { Noted w.old q x v w.new }
{
    transitions::put(w, transitions::ENTERING_AT, v, x);
    transitions::precede(w, v, q);
}

// Puts a transition by x from state q to state v down as number k.
fn place(w: &mut [u32], k: u32, q: u32, x: u32, v: u32)
    requires { (k < transition_limit) × (halves_size ≤ length w.old) }
    ensures { Placed w.old k q x v w.new }
{
    transitions::put(w, transitions::LEAVES_AT, k, q);
    transitions::put(w, transitions::NONTERMINALS_AT, k, x);
    transitions::put(w, transitions::ENTERS_AT, k, v);
}

// The cell v of state q and the symbol x, with t terminals, after k nonterminal transitions; the answer is how many there are now.
fn cell(w: &mut [u32], t: u32, k: u32, q: u32, x: u32, v: u32) -> u32
    requires { (q < 256) × (v < 256) × (k < 65536) × (halves_size ≤ length w.old) }
    ensures { Celled t w.old k q x v w.new result }
{
    if v == 0 {
        return k;
    }
    note(w, q, x, v);
    if x < t {
        return k;
    }
    if k < transitions::LIMIT {
        place(w, k, q, x, v);
    }
    k + 1
}

// The row of state q.
fn row(c: &[u16], t: &[u16], w: &mut [u32], n: u32, q: u32, k: u32) -> u32
    requires { (form_fault c.now ≡ 0) × Numbered c.now n (next_of c.now t.now n) × (q < n) × (halves_size ≤ length w.old) × Passed c.now (next_of c.now t.now n) w.old q 1 k (q + 1) }
    ensures { Come c.now (next_of c.now t.now n) w.old w.new q (terminals c.now + nonterminals c.now) result (q + 1) }
{
    let m = u32::from(card::terminals(c));
    let width = m + u32::from(card::nonterminals(c));
    let at = row_at(c, q);
    let mut r = k;
    for x in 1..width {
        let v = u32::from(card::at(t, at + x as usize));
        r = cell(w, m, r, q, x, v);
    }
    r
}

// The rows of all n states; the answer is the number of nonterminal transitions.
fn rows(c: &[u16], t: &[u16], w: &mut [u32], n: u32) -> u32
    requires { (form_fault c.now ≡ 0) × Numbered c.now n (next_of c.now t.now n) × (halves_size ≤ length w.old) × Passed c.now (next_of c.now t.now n) w.old 0 1 0 0 }
    ensures { Come c.now (next_of c.now t.now n) w.old w.new n 1 result n }
{
    let mut k: u32 = 0;
    for q in 0..n {
        transitions::put(w, transitions::FIRSTS_AT, q, k);
        k = row(c, t, w, n, q, k);
    }
    k
}

// For the states that there are not, the number of all transitions.
fn close(w: &mut [u32], n: u32, k: u32)
    requires { (n ≤ 256) × (halves_size ≤ length w.old) }
    ensures { (c : List ℕ) (next : ℕ → ℕ → ℕ) → Numbered c n next → 1 ≤ terminals c → Passed c next w.old n 1 k n → Come c next w.old w.new n 1 k 257 }
{
    for u in n..257 {
        transitions::put(w, transitions::FIRSTS_AT, u, k);
    }
}

// All of it, with the shortest lengths e: the answer is the number of nonterminal transitions; within the limit the area holds them.
pub fn build(c: &[u16], t: &[u16], w: &mut [u32], n: u32, e: &[u16; 60]) -> u32
    requires { (form_fault c.now ≡ 0) × Numbered c.now n (next_of c.now t.now n) × (halves_size ≤ length w.old) }
    ensures { Built c.now w.old w.new n result e.now (next_of c.now t.now n) }
{
    occurrences::prepare(c, w, e);
    w[transitions::ENTERING_AT..transitions::STARTS_AT].fill(0);
    let k = rows(c, t, w, n);
    close(w, n, k);
    k
}

// ---- the direct reads

// s, and the terminal x where the cell v is not 0.
fn mark(s: u64, x: u32, v: u16) -> u64
    requires { x < 64 }
    ensures { Joined s x v result }
{
    if v == 0 {
        return s;
    }
    sets::with(s, x)
}

// The terminals by which state q has a transition.
fn shifts(c: &[u16], t: &[u16], n: u32, q: u32) -> u64
    requires { (form_fault c.now ≡ 0) × (q < n) × (n ≤ 256) }
    ensures { Holds result (Shifts c.now (next_of c.now t.now n) q) }
{
    let at = row_at(c, q);
    let mut s: u64 = 0;
    for x in 1..u32::from(card::terminals(c)) {
        s = mark(s, x, card::at(t, at + x as usize));
    }
    s
}

// Those of every state, in the words from SHIFTS_AT on.
fn words(c: &[u16], t: &[u16], z: &mut [u64], n: u32)
    requires { (form_fault c.now ≡ 0) × (n ≤ 256) × (words_size ≤ length z.old) }
    ensures { (w : List ℕ) → Copied c.now w (next_of c.now t.now n) z.old z.new n 0 }
{
    for q in 0..n {
        z[transitions::SHIFTS_AT + q as usize] = shifts(c, t, n, q);
    }
}

// The end marker where transition i is the one on the start from state 0.
fn ending(c: &[u16], w: &[u32], i: u32) -> u64
    ensures { Holds result (Ending c.now w.now i) }
{
    if transitions::leaves(w, i) != 0 {
        return 0;
    }
    if transitions::nonterminal(w, i) != u32::from(card::terminals(c)) {
        return 0;
    }
    1
}

// The direct reads of the k transitions, in the words from 0 on.
pub fn direct(c: &[u16], t: &[u16], w: &[u32], z: &mut [u64], n: u32, k: u32)
    requires { Numbered c.now n (next_of c.now t.now n) × (words_size ≤ length z.old) × Data c.now w.now n k (next_of c.now t.now n) }
    ensures { Begun c.now w.now n k (next_of c.now t.now n) z.old z.new }
{
    words(c, t, z, n);
    for i in 0..k {
        let j = transitions::SHIFTS_AT + transitions::enters(w, i) as usize;
        z[i as usize] = z[j] | ending(c, w, i);
    }
}
