// Closures of item sets, and what they are made with.
// z holds item sets in slots: slot q < 256 is for state q, slot CLOSURES + j holds the closure of the first items of nonterminal T + j,
// slot MASKS + x the items that stand before symbol x. w holds the symbol after the dot of each item, 0 where there is none.
#![tactic(auto)]

ghost use Rattle.std.specs.Prelude.{◌≡◌, suc, ◌*◌, ◌≤◌, ◌<◌, length};
ghost use Rattle.grammar.specs.Card.{nonterminals, productions, length_of, start_of, form_fault};
ghost use Rattle.areas.specs.Areas.{words_size};
ghost use Rattle.items.specs.Item.{set_size, item_limit};
ghost use Rattle.closures.specs.Numbers.{first_of};
ghost use Rattle.closures.specs.Sets.{Closed, Afters};
ghost use Rattle.closures.specs.Areas.{masks_at, slots_end, Kept, Filled, Begun, Through, Widened, Led, Firsts, Closures, Masks, Masked, Prepared};

use sets::words;

// The slots of the first nonterminal, and of the first symbol.
pub const CLOSURES: usize = 256;

pub const MASKS: usize = CLOSURES + 60;

// The symbols after the dots of one production's items, from the number of its first item on: its right side and a 0.
fn fill_production(c: &[u16], w: &mut [u32], r: u16, f: usize, s: u32, n: u16)
    requires { (form_fault c.now ≡ 0) × (r < productions c.now) × (n ≡ length_of c.now r) × (s ≡ start_of c.now r) × (f ≡ first_of c.now r) × (item_limit ≤ length w.old) × Filled c.now w.old f }
    ensures { Filled c.now w.new (first_of c.now (suc r)) × Kept w.old item_limit w.new }
{
    for i in 0..n {
        w[f + usize::from(i)] = u32::from(card::symbol(c, s + u32::from(i)));
    }
    w[f + usize::from(n)] = 0;
}

// Zeros from item n on.
fn clear(c: &[u16], w: &mut [u32], n: usize)
    requires { (first_of c.now (productions c.now) < n) × (n ≤ item_limit) × (item_limit ≤ length w.old) × Filled c.now w.old n }
    ensures { Filled c.now w.new item_limit × Kept w.old item_limit w.new }
{
    w[n..items::LIMIT].fill(0);
}

// The symbol after the dot of each item, 0 where there is none.
pub fn fill(c: &[u16], w: &mut [u32])
    requires { (form_fault c.now ≡ 0) × (item_limit ≤ length w.old) }
    ensures { Filled c.now w.new item_limit × Kept w.old item_limit w.new }
{
    let p = card::productions(c);
    let mut s: u32 = 0;
    for r in 0..p {
        let n = card::length(c, r);
        let f = s as usize + usize::from(r);
        fill_production(c, w, r, f, s, n);
        s += u32::from(n);
    }
    let f = s as usize + usize::from(p);
    w[f] = u32::from(card::terminals(c));
    clear(c, w, f + 1);
}

// For each nonterminal T + j, in word j, the nonterminals that begin its productions.
fn begun(c: &[u16], w: &[u32]) -> [u64; 60]
    requires { (form_fault c.now ≡ 0) × (item_limit ≤ length w.now) × Filled c.now w.now item_limit }
    ensures { Begun c.now result (productions c.now) }
{
    let t = u32::from(card::terminals(c));
    let p = card::productions(c);
    let mut b = [0u64; 60];
    let mut f: usize = 0;
    for r in 0..p {
        let x = w[f];
        if t <= x {
            let j = (u32::from(card::left(c, r)) - t) as usize;
            b[j] |= 1 << (x - t);
        }
        f += usize::from(card::length(c, r)) + 1;
    }
    b
}

// a, and b where k is in a.
fn through(a: u64, k: u32, b: u64) -> u64
    ensures { Through a k b result }
{
    if sets::has(a, k) { a | b } else { a }
}

// Each word, with word k where k is in it.
fn widen(b: [u64; 60], n: usize, k: usize) -> [u64; 60]
    requires { (n ≤ 60) × (k < n) }
    ensures { Widened b n k result }
{
    let word = b[k];
    let mut t = b;
    for i in 0..n {
        t[i] = through(t[i], k as u32, word);
    }
    t
}

// For each nonterminal T + j, in word j, the others that begin what it becomes.
fn led(c: &[u16], w: &[u32]) -> [u64; 60]
    requires { (form_fault c.now ≡ 0) × (item_limit ≤ length w.now) × Filled c.now w.now item_limit }
    ensures { Led c.now result }
{
    let n = usize::from(card::nonterminals(c));
    let mut t = begun(c, w);
    for k in 0..n {
        let u = widen(t, n, k);
        t = u;
    }
    t
}

// The first items of the productions whose left side is in b.
fn firsts(c: &[u16], b: u64) -> [u64; 11]
    requires { form_fault c.now ≡ 0 }
    ensures { Firsts c.now b (productions c.now) result }
{
    let t = card::terminals(c);
    let p = card::productions(c);
    let mut s = items::empty();
    let mut f: usize = 0;
    for r in 0..p {
        if sets::has(b, u32::from(card::left(c, r) - t)) {
            let u = items::with(s, f);
            s = u;
        }
        f += usize::from(card::length(c, r)) + 1;
    }
    s
}

// The closures of the nonterminals, in their slots.
fn fill_closures(c: &[u16], w: &[u32], z: &mut [u64])
    requires { (form_fault c.now ≡ 0) × (item_limit ≤ length w.now) × Filled c.now w.now item_limit × (words_size ≤ length z.old) }
    ensures { Closures c.now z.new (nonterminals c.now) × Kept z.old (masks_at * set_size) z.new }
{
    let n = usize::from(card::nonterminals(c));
    let b = led(c, w);
    for j in 0..n {
        let r = firsts(c, b[j] | (1 << j));
        items::store(z, (CLOSURES + j) * items::SIZE, r);
    }
}

// No item before any symbol.
fn clear_masks(c: &[u16], z: &mut [u64])
    requires { (form_fault c.now ≡ 0) × (words_size ≤ length z.old) }
    ensures { Masked c.now z.old z.new 0 }
{
    let n = usize::from(card::terminals(c)) + usize::from(card::nonterminals(c));
    for x in 0..n {
        items::store(z, (MASKS + x) * items::SIZE, items::empty());
    }
}

// The items before each symbol, in its slot.
fn fill_masks(c: &[u16], w: &[u32], z: &mut [u64])
    requires { (form_fault c.now ≡ 0) × (item_limit ≤ length w.now) × Filled c.now w.now item_limit × (words_size ≤ length z.old) × Masks c.now z.old 0 }
    ensures { Masked c.now z.old z.new item_limit }
{
    for i in 0..items::LIMIT {
        let at = (MASKS + w[i] as usize) * items::SIZE;
        z[at + i / 64] |= 1 << (i % 64);
    }
}

// Closures and masks.
pub fn prepare(c: &[u16], w: &[u32], z: &mut [u64])
    requires { (form_fault c.now ≡ 0) × (item_limit ≤ length w.now) × Filled c.now w.now item_limit × (words_size ≤ length z.old) }
    ensures { Prepared c.now z.new × Kept z.old slots_end z.new }
{
    fill_closures(c, w, z);
    clear_masks(c, z);
    fill_masks(c, w, z);
}

// The closure of s, by those of the nonterminals after its dots.
pub fn closure(c: &[u16], w: &[u32], z: &[u64], s: [u64; 11]) -> [u64; 11]
    requires { (form_fault c.now ≡ 0) × (item_limit ≤ length w.now) × Filled c.now w.now item_limit × Prepared c.now z.now }
    ensures { Closed c.now s result }
{
    let t = u32::from(card::terminals(c));
    let mut r = s;
    let mut from = 0;
    while let Some(i) = words::next(s, from) {
        let x = w[i];
        if t <= x {
            let u = items::join(
                r,
                items::load(z, (CLOSURES + (x - t) as usize) * items::SIZE),
            );
            r = u;
        }
        from = i + 1;
    }
    r
}

// The symbols after the dots of s, 0 among them where a dot stands last: a set of numbers like s.
pub fn afters(c: &[u16], w: &[u32], s: [u64; 11]) -> [u64; 11]
    requires { (form_fault c.now ≡ 0) × (item_limit ≤ length w.now) × Filled c.now w.now item_limit }
    ensures { Afters c.now s item_limit result }
{
    let mut a = items::empty();
    let mut from = 0;
    while let Some(i) = words::next(s, from) {
        let x = w[i] as usize;
        a[x / 64] |= 1 << (x % 64);
        from = i + 1;
    }
    a
}
