// For each nonterminal of a card its shortest known string of terminals, and the shortest known one by a derivation that
// uses a named production.
#![tactic(auto)]

ghost use Rattle.std.specs.Prelude.{◌≡◌, true, List, [], ◌++◌, ℕ, ◌+◌, ◌≤◌, ◌<◌, eqb, length, take, get_or, set};
ghost use Rattle.sets.specs.Lists.{covered};
ghost use Rattle.grammar.specs.Card.{terminals, nonterminals, productions, length_of, start_of, symbol_of, form_fault};
ghost use Rattle.sample_words.specs.Words.{key_of, count_of, placed_sum, place_of, Best, piece_of, composed, Lengths, Wide, Words, left_key, within as within_of, Still, Lower};

// What is known: the lengths of words, 256 for none, and the words, each with zeros behind it. Those by a derivation that uses the
// named production stand 60 places on.
#[derive(Drop)]
pub struct Table {
    pub lengths: [u16; 120],
    pub words: [[u8; 255]; 120],
}

// The place of nonterminal T + j.
#[tactic(auto, unfolding(crate::specs::Words::key_of))]
fn key(u: bool, j: usize) -> usize
    requires { j < 60 }
    ensures { (result ≡ key_of u j) × (result < 120) }
{
    if u { 60 + j } else { j }
}

// What symbol x counts.
fn count(c: &[u16], table: &Table, u: bool, x: u16) -> u32
    requires { (form_fault c.now ≡ 0) × (x < terminals c.now + nonterminals c.now) × Lengths table.now.lengths }
    ensures { (result ≡ count_of c.now table.now.lengths u x) × (result ≤ 256) }
{
    let t = card::terminals(c);
    if t <= x {
        u32::from(table.lengths[key(u, usize::from(x - t))])
    } else if u {
        256
    } else {
        1
    }
}

// The least sum of a right side, and the place of the symbol in it that uses the production, if one does.
#[derive(Clone, Copy)]
struct Found {
    sum: u32,
    place: Option<u16>,
}

// Those of production r, whose symbols begin at s; with u a symbol has to use the production.
fn best(c: &[u16], table: &Table, r: u16, s: u32, u: bool) -> Found
    requires { (form_fault c.now ≡ 0) × (r < productions c.now) × (s ≡ start_of c.now r) × Lengths table.now.lengths }
    ensures { Best c.now table.now.lengths r u result.sum (place_of c.now r result.place) }
{
    let mut plain: u32 = 0;
    let mut used: u32 = 256;
    let mut place = None;
    for d in 0..card::length(c, r) {
        let x = card::symbol(c, s + u32::from(d));
        let here = plain + count(c, table, true, x);
        let m = count(c, table, false, x);
        plain += m;
        used += m;
        if here < used {
            used = here;
            place = Some(d);
        }
    }
    if u {
        Found { sum: used, place }
    } else {
        Found {
            sum: plain,
            place: None,
        }
    }
}

// Writes the first n bytes of a row behind the m bytes of b.
fn append(b: &mut [u8; 255], m: usize, row: &[u8; 255], n: usize)
    requires { (m + n ≤ 255) × (length row.now ≡ 255) }
    ensures { (v : List ℕ) → length v ≡ m → b.old ≡ covered 255 v [] → b.new ≡ covered 255 (v ++ take n row.now) [] }
{
    b[m..m + n].copy_from_slice(&row[..n]);
}

// Writes the word at place k behind the m bytes of b; gives how many bytes there are then.
fn put_word(table: &Table, b: &mut [u8; 255], m: usize, k: usize) -> usize
    requires { (k < 120) × (m + get_or table.now.lengths k 0 ≤ 255) × Wide table.now.words }
    ensures { (result ≡ m + get_or table.now.lengths k 0) × ((v : List ℕ) → length v ≡ m → b.old ≡ covered 255 v [] → b.new ≡ covered 255 (v ++ take (get_or table.now.lengths k 0) (get_or table.now.words k [])) []) }
{
    let n = usize::from(table.lengths[k]);
    append(b, m, &table.words[k], n);
    m + n
}

// Writes the terminals of symbol x behind the m bytes of b; gives how many bytes there are then.
fn put(c: &[u16], table: &Table, b: &mut [u8; 255], m: usize, u: bool, x: u16) -> usize
    requires { (form_fault c.now ≡ 0) × (x < terminals c.now + nonterminals c.now) × (m + count_of c.now table.now.lengths u x ≤ 255) × Wide table.now.words }
    ensures { (result ≡ m + count_of c.now table.now.lengths u x) × ((v : List ℕ) → length v ≡ m → b.old ≡ covered 255 v [] → b.new ≡ covered 255 (v ++ piece_of c.now table.now.lengths table.now.words u x) []) }
{
    let t = card::terminals(c);
    if t <= x {
        put_word(table, b, m, key(u, usize::from(x - t)))
    } else {
        b[m] = x as u8;
        m + 1
    }
}

// The terminals of production r's right side, whose symbols begin at s, where the one at `place` uses the production.
fn compose(c: &[u16], table: &Table, r: u16, s: u32, place: Option<u16>) -> [u8; 255]
    requires { (form_fault c.now ≡ 0) × (r < productions c.now) × (s ≡ start_of c.now r) × (placed_sum c.now table.now.lengths r (place_of c.now r place) (length_of c.now r) ≤ 255) × Lengths table.now.lengths × Wide table.now.words }
    ensures { result ≡ covered 255 (composed c.now table.now.lengths table.now.words r (place_of c.now r place) (length_of c.now r)) [] }
{
    let mut b = [0u8; 255];
    let mut m: usize = 0;
    for d in 0..card::length(c, r) {
        let x = card::symbol(c, s + u32::from(d));
        m = put(c, table, &mut b, m, Some(d) == place, x);
    }
    b
}

// Whether a symbol of r's right side has to use production m, where r's left side has to.
fn within(m: u16, u: bool, r: u16) -> bool
    ensures { result ≡ within_of m u r }
{
    u & (r != m)
}

// The place of the left side of production r.
fn left_key(c: &[u16], u: bool, r: u16) -> usize
    requires { (form_fault c.now ≡ 0) × (r < productions c.now) }
    ensures { (result ≡ left_key c.now u r) × (result < 120) }
{
    key(u, usize::from(card::left(c, r) - card::terminals(c)))
}

// Writes the sum f and the terminals of production r's right side, whose symbols begin at s, to place k.
fn store(c: &[u16], table: &mut Table, r: u16, s: u32, k: usize, f: Found)
    requires { (form_fault c.now ≡ 0) × (r < productions c.now) × (s ≡ start_of c.now r) × (k < 120) × (f.sum ≤ 255) × (placed_sum c.now table.old.lengths r (place_of c.now r f.place) (length_of c.now r) ≤ 255) × Lengths table.old.lengths × Wide table.old.words }
    ensures { (table.new.lengths ≡ set table.old.lengths k f.sum) × (table.new.words ≡ set table.old.words k (covered 255 (composed c.now table.old.lengths table.old.words r (place_of c.now r f.place) (length_of c.now r)) [])) }
{
    let word = compose(c, table, r, s, f.place);
    table.words[k] = word;
    table.lengths[k] = f.sum as u16;
}

// Lessens what is known of the left side of production r, whose symbols begin at s, to what its right side gives, where that is shorter;
// with u it has to use production m. Whether it was.
pub fn lessen(c: &[u16], m: u16, table: &mut Table, r: u16, s: u32, u: bool) -> bool
    requires { (form_fault c.now ≡ 0) × (r < productions c.now) × (s ≡ start_of c.now r) × Words c.now m table.old.lengths table.old.words }
    ensures { Words c.now m table.new.lengths table.new.words × Lower table.old.lengths table.new.lengths (λ l. Still c.now m l u r) result }
{
    let k = left_key(c, u, r);
    let f = best(c, table, r, s, within(m, u, r));
    if u32::from(table.lengths[k]) <= f.sum {
        return false;
    }
    store(c, table, r, s, k, f);
    true
}
