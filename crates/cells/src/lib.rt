// The cells of one state from its words, and what stands in front of a table's rows (header, entering symbols).
#![tactic(auto)]

ghost use Rattle.std.specs.Prelude.{◌≡◌, true, ◌↔◌, ◌≢◌, ℕ, ◌+◌, ◌*◌, ◌<◌, ◌≤◌, length, take, IfSome};
ghost use Rattle.sets.specs.Bit.{bit};
ghost use Rattle.grammar.specs.Card.{terminals as terminals_of, productions as productions_of};
ghost use Rattle.tables.specs.Layout.{header_size};
ghost use Rattle.tables.specs.Conflicts.{Lowest};
ghost use Rattle.cells.specs.Words.{Numbers, Live, Two, Sought, number_of, Put, Row};
ghost use Rattle.sets.specs.Lists.{covered};
ghost use Rattle.areas.specs.Areas.{table_size, row_of};
ghost use Rattle.cells.specs.Areas.{table_area, Inserted, Arrays, Header};

// The number of the acceptance, as in specs/Actions.antt.
const ACCEPTS: u16 = 4096;

// The terminals at which two numbers of a state meet: it shifts `shifts`, production r has the lookaheads words[r], and it accepts at `accept`.
// Only the productions in `live` have any.
pub fn meeting(p: usize, shifts: u64, words: &[u64; 128], live: [u64; 2], accept: u64) -> u64
    requires { (p ≤ 128) × Live p words.now live }
    ensures { (m s : ℕ) → s < 1024 → (bit shifts m ≡ true) ↔ (s ≢ 0) → (bit result m ≡ true) ↔ Two (Numbers p s words.now accept m) }
{
    let mut seen = shifts;
    let mut twice: u64 = 0;
    let mut from = 0;
    while let Some(r) = sets::words::next(live, from) {
        let v = words[r];
        twice |= seen & v;
        seen |= v;
        from = r + 1;
    }
    twice | (seen & accept)
}

// The lowest production from `start` on that has the lookahead m.
fn lowest(p: usize, words: &[u64; 128], m: u32, start: usize) -> Option<usize>
    requires { p ≤ 128 }
    ensures { Sought p words.now m start result }
{
    (start..p).find(|r| sets::has(words[*r], m))
}

// The number that reduces by a production, and the one that accepts where there is none.
fn number(production: Option<usize>) -> u16
    requires { IfSome production (λ r. r < 128) }
    ensures { result ≡ number_of production }
{
    match production {
        Some(r) => 1024 + r as u16,
        None => ACCEPTS,
    }
}

#[derive(Clone, Copy)]
pub struct Met {
    pub lower: u16,
    pub upper: u16,
}

// The two lowest numbers at the terminal m, where two meet; s is the state that m is shifted to, 0 where it is not.
pub fn pair(p: usize, s: u16, words: &[u64; 128], m: u32) -> Met
    requires { p ≤ 128 }
    ensures { (accept : ℕ) → s < 1024 → Two (Numbers p s words.now accept m) → Lowest (Numbers p s words.now accept m) result.lower result.upper }
{
    let first = lowest(p, words, m, 0);
    let a = number(first);
    if s != 0 {
        return Met { lower: s, upper: a };
    }
    let second = first.and_then(|r| lowest(p, words, m, r + 1));
    Met {
        lower: a,
        upper: number(second),
    }
}

// Puts v at the places behind b that the word has.
fn put(t: &mut [u16], b: usize, word: u64, v: u16)
    requires { b + 64 ≤ length t.old }
    ensures { Put b word v t.old t.new }
{
    let mut left = word;
    while left != 0 {
        let m = u64::trailing_zeros(left) as usize;
        t[b + m] = v;
        left &= left - 1;
    }
}

// Writes the reductions and the acceptance of a state into its row, which begins at b.
pub fn write(t: &mut [u16], b: usize, p: usize, words: &[u64; 128], live: [u64; 2], accept: u64)
    requires { (p ≤ 128) × (b + 64 ≤ length t.old) × Live p words.now live }
    ensures { Row b p words.now accept t.old t.new }
{
    let mut from = 0;
    while let Some(r) = sets::words::next(live, from) {
        put(t, b, words[r], 1024 + r as u16);
        from = r + 1;
    }
    put(t, b, accept, ACCEPTS);
}

// Copies the left sides and the lengths of the card c into the table area, behind the sizes.
fn arrays(c: &[u16], t: &mut [u16], p: u16)
    requires { (p ≡ productions_of c.now) × (header_size p ≤ length t.old) }
    ensures { Arrays c.now (productions_of c.now) t.old t.new }
{
    for r in 0..p {
        let i = tables::left_at(usize::from(r));
        let j = tables::length_at(usize::from(p), usize::from(r));
        t[i] = card::left(c, r);
        t[j] = card::length(c, r);
    }
}

// Writes the header of a table of n states: Q, T, N, P, the left sides and the lengths.
fn header(c: &[u16], t: &mut [u16], n: u16)
    requires { header_size (productions_of c.now) ≤ length t.old }
    ensures { Header c.now n t.old t.new }
{
    let p = card::productions(c);
    t[tables::STATES] = n;
    t[tables::TERMINALS] = card::terminals(c);
    t[tables::NONTERMINALS] = card::nonterminals(c);
    t[tables::PRODUCTIONS] = p;
    arrays(c, t, p);
}

// Moves the working rows of n states to where the table has them, and writes the entering symbols in front. Gives the end of the rows.
#[tactic(auto, using(crate::proofs::AreaLaws::row_first, areas::proofs::RowLaws::row_header))]
fn insert(c: &[u16], t: &mut [u16], e: &[u16; 256], n: usize) -> usize
    requires { (n ≤ 256) × (row_of c.now n + n ≤ table_size) × (table_size ≤ length t.old) }
    ensures { (result ≡ row_of c.now n + n) × Inserted c.now n e.now t.old t.new }
{
    let first = areas::row(c, 0);
    let end = areas::row(c, n);
    t.copy_within(first..end, first + n);
    t[first..first + n].copy_from_slice(&e[..n]);
    end + n
}

// Makes the table of n states whose working rows stand in the table area and whose entering symbols are e: the header in front, zeros behind.
pub fn finish(c: &[u16], t: &mut [u16], e: &[u16; 256], n: u16)
    requires { (0 < terminals_of c.now) × (n ≤ 256) × (row_of c.now n + n ≤ table_size) × (table_size ≤ length t.old) }
    ensures { t.new ≡ table_area c.now n e.now t.old }
{
    let end = insert(c, t, e, usize::from(n));
    header(c, t, n);
    t[end..areas::TABLE].fill(0);
}
