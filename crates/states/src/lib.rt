// The states of a card by number, with their transitions, and refusal 11.
// The slots of z, and w, are those of crate closures: slot q < 256 is state q.
#![tactic(auto)]

ghost use Rattle.std.specs.Prelude.{◌≡◌, true, ℕ, ◌+◌, ◌*◌, ◌≤◌, ◌<◌, length, get_or};
ghost use Rattle.grammar.specs.Card.{terminals, nonterminals, form_fault};
ghost use Rattle.areas.specs.Areas.{table_size, words_size};
ghost use Rattle.closures.specs.Numbers.{after_of};
ghost use Rattle.closures.specs.Sets.{Start};
ghost use Rattle.closures.specs.Areas.{slot, Filled, Prepared};
ghost use Rattle.items.specs.Item.{set_size, item_limit, item};
ghost use Rattle.states.specs.Places.{Candidate, Found, Placed, Target, Skipped};
ghost use Rattle.states.specs.States.{Apart, Rowed, Stated, Built};

// The first state from p on and below n whose word k is v.
fn candidate(z: &[u64], n: usize, p: usize, k: usize, v: u64) -> Option<usize>
    requires { (p ≤ n) × (n ≤ 256) × (k < set_size) × (n * set_size ≤ length z.now) }
    ensures { Candidate z.now n p k v result }
{
    let mut q = p;
    while q + 3 < n {
        let at = q * items::SIZE + k;
        if z[at] == v {
            return Some(q);
        }
        if z[at + items::SIZE] == v {
            return Some(q + 1);
        }
        if z[at + 2 * items::SIZE] == v {
            return Some(q + 2);
        }
        if z[at + 3 * items::SIZE] == v {
            return Some(q + 3);
        }
        q += 4;
    }
    for r in q..n {
        if z[r * items::SIZE + k] == v {
            return Some(r);
        }
    }
    None
}

// The first of the n states that is s. Word k is compared first, and the others only where it is the same.
fn find(z: &[u64], n: usize, s: [u64; 11], k: usize) -> Option<usize>
    requires { (n ≤ 256) × (k < set_size) × (n * set_size ≤ length z.now) }
    ensures { Found z.now n s result }
{
    let v = s[k];
    let mut from = 0;
    while let Some(q) = candidate(z, n, from, k, v) {
        if items::is_at(s, z, q * items::SIZE) {
            return Some(q);
        }
        from = q + 1;
    }
    None
}

// The number of the state s among n: found, or the next one, and then s is put down; None where there is no room for it.
fn place(z: &mut [u64], n: usize, s: [u64; 11], k: usize) -> Option<usize>
    requires { (n ≤ 256) × (k < set_size) × (words_size ≤ length z.old) }
    ensures { Placed z.old n s z.new result }
{
    if let Some(q) = find(z, n, s, k) {
        return Some(q);
    }
    if n < 256 {
        items::store(z, n * items::SIZE, s);
        return Some(n);
    }
    None
}

// The state to which s has a transition on x, which stands after a dot of s; None where there is no room for it.
fn target(c: &[u16], z: &mut [u64], w: &[u32], n: usize, s: [u64; 11], x: usize) -> Option<usize>
    requires { (form_fault c.now ≡ 0) × (item_limit ≤ length w.now) × Filled c.now w.now item_limit × Prepared c.now z.old × (n ≤ 256) × (0 < x) × (x < terminals c.now + nonterminals c.now) × ((i : ℕ) × (i < item_limit) × (item s i ≡ true) × (after_of c.now i ≡ x)) }
    ensures { Target c.now s x z.old n z.new result }
{
    let core = items::advance(s, items::load(z, (closures::MASKS + x) * items::SIZE));
    let d = closures::closure(c, w, z, core);
    place(z, n, d, items::next(core, 0) / 64)
}

// Zeros in the cells of a row from symbol x on, up to the first symbol that is in a or to the end: which it is, is the answer.
fn skip(t: &mut [u16], at: usize, x: usize, end: usize, a: [u64; 11]) -> usize
    requires { (x ≤ end) × (end ≤ item_limit) × (at + end ≤ table_size) × (table_size ≤ length t.old) }
    ensures { Skipped t.old at x end a t.new result }
{
    let y = items::next(a, x).min(end);
    t[at + x..at + y].fill(0);
    y
}

// The row of the state s, from the place `at` on: its transitions on the symbols in ascending order, none on 0.
// The answer is the number of states now; None where more than 256 are needed.
fn row(
    c: &[u16],
    t: &mut [u16],
    z: &mut [u64],
    w: &[u32],
    at: usize,
    s: [u64; 11],
    m: usize,
) -> Option<usize>
    requires { (form_fault c.now ≡ 0) × (item_limit ≤ length w.now) × Filled c.now w.now item_limit × Prepared c.now z.old × (0 < m) × (m ≤ 256) × Apart z.old m × (at + (terminals c.now + nonterminals c.now) ≤ table_size) × (table_size ≤ length t.old) × (get_or t.old at 0 ≡ 0) }
    ensures { Rowed c.now s z.old m t.old at z.new t.new result }
{
    let end = usize::from(card::terminals(c)) + usize::from(card::nonterminals(c));
    let a = closures::afters(c, w, s);
    let mut n = m;
    let mut x: usize = 1;
    while x < end {
        let y = skip(t, at, x, end, a);
        if y == end {
            return Some(n);
        }
        let p = target(c, z, w, n, s, y)?;
        t[at + y] = p as u16;
        n = n.max(p + 1);
        x = y + 1;
    }
    Some(n)
}

// The rows of all states in number order, from the first, which stands in its slot.
fn rows(c: &[u16], t: &mut [u16], z: &mut [u64], w: &[u32]) -> Option<usize>
    requires { (form_fault c.now ≡ 0) × (item_limit ≤ length w.now) × Filled c.now w.now item_limit × Prepared c.now z.old × (table_size ≤ length t.old) × Start c.now (slot z.old 0) }
    ensures { Stated c.now z.old t.old z.new t.new result }
{
    let width = usize::from(card::terminals(c)) + usize::from(card::nonterminals(c));
    let mut n: usize = 1;
    let mut at = areas::row(c, 0);
    let mut q: usize = 0;
    while q < n {
        let s = items::load(z, q * items::SIZE);
        t[at] = 0;
        n = row(c, t, z, w, at, s, n)?;
        at += width;
        q += 1;
    }
    Some(n)
}

// The states of a card: their number, their item sets in z and their transitions in the rows of t; None where they are more than 256.
pub fn states(c: &[u16], t: &mut [u16], z: &mut [u64], w: &mut [u32]) -> Option<usize>
    requires { (form_fault c.now ≡ 0) × (table_size ≤ length t.old) × (words_size ≤ length z.old) × (item_limit ≤ length w.old) }
    ensures { Built c.now t.old z.old w.old t.new z.new w.new result }
{
    closures::fill(c, w);
    closures::prepare(c, w, z);
    let p = card::productions(c);
    let f = card::start(c, p) as usize + usize::from(p);
    let first = closures::closure(c, w, z, items::with(items::empty(), f));
    items::store(z, 0, first);
    rows(c, t, z, w)
}
