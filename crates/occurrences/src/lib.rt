// What the relations need of the card: the starts of the right sides, and the occurrences of nonterminals with only nullable symbols behind them.
#![tactic(auto)]

ghost use Rattle.std.specs.Prelude.{◌≡◌, ◌<◌, ◌≤◌, length};
ghost use Rattle.grammar.specs.Card.{productions, length_of, start_of, form_fault};
ghost use Rattle.areas.specs.Areas.{halves_size};
ghost use Rattle.transitions.specs.Area.{shortest_of};
ghost use Rattle.occurrences.specs.Stores.{Occurred};
ghost use Rattle.occurrences.specs.Gathers.{Gathered, Between, Collected, Prepared};

// Puts symbol d of production r, nonterminal number j, down as occurrence m.
fn occur(w: &mut [u32], m: u32, r: u32, d: u32, j: u32)
    requires { (m < 512) × (j < 60) × (halves_size ≤ length w.old) }
    ensures { Occurred w.old m r d j w.new }
{
    transitions::put(w, transitions::PRODUCTIONS_AT, m, r);
    transitions::put(w, transitions::DOTS_AT, m, d);
    let before = transitions::last(w, j);
    transitions::put(w, transitions::LINKS_AT, m, before);
    transitions::put(w, transitions::LASTS_AT, j, m + 1);
}

// The occurrences in production r, from its end as far as what is behind is nullable; its symbols begin at s, and m occurrences are there.
fn tail(c: &[u16], w: &mut [u32], r: u16, s: u32, m: u32) -> u32
    requires { (form_fault c.now ≡ 0) × (r < productions c.now) × (s ≡ start_of c.now r) × (halves_size ≤ length w.old) × Gathered c.now (shortest_of w.old) w.old r (length_of c.now r) m }
    ensures { Gathered c.now (shortest_of w.old) w.new r 0 result × Between w.old w.new }
{
    let t = u32::from(card::terminals(c));
    let mut k = m;
    for d in (0..u32::from(card::length(c, r))).rev() {
        let x = u32::from(card::symbol(c, s + d));
        if x < t {
            return k;
        }
        occur(w, k, u32::from(r), d, x - t);
        k += 1;
        if transitions::shortest_length(w, x - t) != 0 {
            return k;
        }
    }
    k
}

// The starts of the right sides and the occurrences in them; the answer is how many.
fn gather(c: &[u16], w: &mut [u32]) -> u32
    requires { (form_fault c.now ≡ 0) × (halves_size ≤ length w.old) × Gathered c.now (shortest_of w.old) w.old 0 (length_of c.now 0) 0 }
    ensures { Collected c.now w.old w.new result }
{
    let mut s: u32 = 0;
    let mut m: u32 = 0;
    for r in 0..card::productions(c) {
        transitions::put(w, transitions::STARTS_AT, u32::from(r), s);
        m = tail(c, w, r, s, m);
        s += u32::from(card::length(c, r));
    }
    m
}

// All that the card gives, with the shortest lengths e of its nonterminals.
pub fn prepare(c: &[u16], w: &mut [u32], e: &[u16; 60])
    requires { (form_fault c.now ≡ 0) × (halves_size ≤ length w.old) }
    ensures { Prepared c.now e.now w.old w.new }
{
    transitions::put_lengths(w, e);
    w[transitions::LASTS_AT..transitions::PRODUCTIONS_AT].fill(0);
    let m = gather(c, w);
    transitions::put(w, transitions::OCCURRENCES_AT, 0, m);
}
