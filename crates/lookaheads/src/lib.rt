// The lookaheads of each state, and the table: cells, entering symbols, zeros.
#![tactic(auto)]

ghost use Rattle.std.specs.Prelude.{◌≡◌, List, ℕ, ◌+◌, ◌<◌, ◌≤◌, ◌^◌, length, get_or};
ghost use Rattle.items.specs.Item.{item};
ghost use Rattle.grammar.specs.Card.{terminals, productions, length_of, start_of, form_fault};
ghost use Rattle.areas.specs.Areas.{table_size, row_of};
ghost use Rattle.transitions.specs.Places.{transition_limit, shifts_at};
ghost use Rattle.transitions.specs.Area.{entering_of};
ghost use Rattle.transitions.specs.Next.{Numbered};
ghost use Rattle.transitions.specs.Data.{Ordered, Holds};
ghost use Rattle.cells.specs.Actions.{Act};
ghost use Rattle.cells.specs.Words.{Two, Live};
ghost use Rattle.lookaheads.specs.LooksBack.{LooksBack, Looks};
ghost use Rattle.lookaheads.specs.Joins.{Joins, Key, Keyed, Added, Candidates, Accepts};
ghost use Rattle.lookaheads.specs.Outcome.{Stage, Stands, Named, Searched, Closed, Filled, Met};

// s and the set of the transition from state p by the nonterminal x, where there is one.
fn join(w: &[u32], z: &[u64], p: u32, x: u32, s: u64) -> u64
    requires { ((c : List ℕ) × (k : ℕ) × Ordered c w.now k) × (p < 256) × (transition_limit ≤ length z.now) }
    ensures { (c : List ℕ) (k : ℕ) → Ordered c w.now k → Joins w.now z.now k p x s result }
{
    match relations::index(w, p, x) {
        Some(i) => s | z[i as usize],
        None => s,
    }
}

// The lookaheads of production r in state q.
fn lookahead(c: &[u16], w: &[u32], z: &[u64], q: u32, r: u16) -> u64
    requires { ((k : ℕ) × Ordered c.now w.now k) × (q < 256) × (r < productions c.now) × (transition_limit ≤ length z.now) }
    ensures { (k : ℕ) → Ordered c.now w.now k → Holds result (LooksBack c.now w.now z.now k q r) }
{
    let x = u32::from(card::left(c, r));
    let d = u32::from(card::length(c, r));
    if d == 0 {
        return join(w, z, q, x, 0);
    }
    let left = relations::back(c, w, q, u32::from(r), d);
    let mut s = 0;
    let mut from = 0;
    while let Some(p) = sets::words::next(left, from) {
        s = join(w, z, p as u32, x, s);
        from = p + 1;
    }
    s
}

// What production r is kept under: the last of its d symbols, which begin at b; where it has none, 128 and its left side.
fn key(c: &[u16], r: u16, b: u32, d: u32) -> u32
    requires { b + d ≤ 512 }
    ensures { b ≡ start_of c.now r → d ≡ length_of c.now r → Key c.now r result }
{
    if d == 0 {
        128 + u32::from(card::left(c, r))
    } else {
        u32::from(card::symbol(c, b + (d - 1)))
    }
}

// All productions, each under its key: two words to a key.
fn keys(c: &[u16]) -> [u64; 512]
    requires { form_fault c.now ≡ 0 }
    ensures { Keyed c.now result (productions c.now) }
{
    let mut s = [0u64; 512];
    let mut b = 0;
    for r in 0..card::productions(c) {
        let d = u32::from(card::length(c, r));
        let i = 128 * key(c, r, b, d) as usize + usize::from(r);
        s[i / 64] |= 1 << (i % 64);
        b += d;
    }
    s
}

// s and the productions that are kept under v.
fn add(s: [u64; 2], keyed: &[u64; 512], v: u32) -> [u64; 2]
    ensures { Added keyed.now v s result }
{
    let mut t = s;
    if v < 256 {
        let i = 2 * v as usize;
        t[0] |= keyed[i];
        t[1] |= keyed[i + 1];
    }
    t
}

// The productions that may have lookaheads in state q: those that end with the symbol under which q is entered,
// and the empty ones of the nonterminals that have a transition from q.
fn candidates(w: &[u32], keyed: &[u64; 512], q: u32) -> [u64; 2]
    requires { ((c : List ℕ) × (k : ℕ) × Ordered c w.now k) × (q < 256) }
    ensures { (c : List ℕ) (k : ℕ) → Ordered c w.now k → Keyed c keyed.now (productions c) → Candidates c w.now k q result }
{
    let mut s = add([0; 2], keyed, transitions::entering(w, q));
    for i in transitions::first(w, q)..transitions::first(w, q + 1) {
        let more = add(s, keyed, 128 + transitions::nonterminal(w, i));
        s = more;
    }
    s
}

// The lookaheads of all productions in state q; only those in `live` are looked at.
fn words(c: &[u16], w: &[u32], z: &[u64], live: [u64; 2], q: u32) -> [u64; 128]
    requires { ((k : ℕ) × Ordered c.now w.now k) × (q < 256) × (transition_limit ≤ length z.now) × ((k : ℕ) → Ordered c.now w.now k → Candidates c.now w.now k q live) }
    ensures { Live (productions c.now) result live
        × ((k : ℕ) → Ordered c.now w.now k → Looks c.now w.now z.now k q result) }
{
    let n = usize::from(card::productions(c));
    let mut s = [0u64; 128];
    let mut from = 0;
    while let Some(r) = sets::words::next(live, from) {
        if n <= r {
            return s;
        }
        s[r] = lookahead(c, w, z, q, r as u16);
        from = r + 1;
    }
    s
}

// The terminals at which state q accepts, where the start leads from state 0 to state a.
fn acceptance(a: u16, q: u16) -> u64
    ensures { Holds result (Accepts a q) }
{
    if q == 0 {
        0
    } else if a == q {
        1
    } else {
        0
    }
}

// The state that the start leads to from state 0.
fn target(c: &[u16], t: &[u16]) -> u16
    requires { row_of c.now 0 ≤ table_size }
    ensures { result ≡ get_or t.now (row_of c.now 0 + terminals c.now) 0 }
{
    card::at(t, areas::row(c, 0) + usize::from(card::terminals(c)))
}

// The terminals that state q shifts.
fn shifts(z: &[u64], q: u16) -> u64
    requires { shifts_at + q < length z.now }
    ensures { result ≡ get_or z.now (shifts_at + q) 0 }
{
    z[transitions::SHIFTS_AT + usize::from(q)]
}

// A cell where two actions meet, and the two lowest numbers there.
#[derive(Clone, Copy)]
pub struct Conflict {
    pub state: u16,
    pub terminal: u16,
    pub lower: u16,
    pub upper: u16,
}

// The two lowest numbers at state q, of which these lookaheads are found, and terminal m, where two meet.
fn conflict_at(c: &[u16], t: &[u16], found: &[u64; 128], q: u16, m: u16) -> Conflict
    requires { (productions c.now ≤ 128) × (row_of c.now q ≤ table_size) }
    ensures { (w z : List ℕ) (n k : ℕ) (next : ℕ → ℕ → ℕ) → Numbered c.now n next → Looks c.now w z k q found.now → m < terminals c.now
        → get_or t.now (row_of c.now q + m) 0 ≡ next q m → Two (Act c.now next (LooksBack c.now w z k q) q m)
        → Named (Act c.now next (LooksBack c.now w z k q) q m) q m result }
{
    let p = usize::from(card::productions(c));
    let s = card::at(t, areas::row(c, usize::from(q)) + usize::from(m));
    let met = cells::pair(p, s, found, u32::from(m));
    Conflict {
        state: q,
        terminal: m,
        lower: met.lower,
        upper: met.upper,
    }
}

// Writes the reductions and the acceptance of all states, or up to the row of the first cell where two actions meet.
fn rows(
    c: &[u16],
    t: &mut [u16],
    w: &[u32],
    z: &[u64],
    keyed: &[u64; 512],
    n: u16,
) -> Result<(), Conflict>
    requires { Stage c.now t.old w.now z.now n × Keyed c.now keyed.now (productions c.now) }
    ensures { (k : ℕ) → Ordered c.now w.now k → Searched c.now (Stands c.now t.old w.now z.now n k) n t.old t.new result }
{
    let terminals = card::terminals(c);
    let p = usize::from(card::productions(c));
    let a = target(c, t);
    'states: {
        for q in 0..n {
            let state = u32::from(q);
            let live = candidates(w, keyed, state);
            let found = words(c, w, z, live, state);
            let accept = acceptance(a, q);
            let meet = cells::meeting(p, shifts(z, q), &found, live, accept);
            if meet != 0 {
                for m in 0..terminals {
                    if sets::has(meet, u32::from(m)) {
                        break 'states Err(conflict_at(c, t, &found, q, m));
                    }
                }
            }
            let b = areas::row(c, usize::from(q));
            cells::write(t, b, p, &found, live, accept);
        }
        Ok(())
    }
}

// The symbols under which the n states are entered.
fn entries(w: &[u32], n: u32) -> [u16; 256]
    requires { (n ≤ 256) × ((q : ℕ) → q < n → entering_of w.now q < 2 ^ 16) }
    ensures { (q : ℕ) → q < n → get_or result q 0 ≡ entering_of w.now q }
{
    let mut s = [0u16; 256];
    for q in 0..n {
        s[q as usize] = transitions::entering(w, q) as u16;
    }
    s
}

// The table of written rows and entering symbols, or zeros where two actions meet.
fn close(c: &[u16], t: &mut [u16], e: &[u16; 256], n: u16, r: Result<(), Conflict>)
    requires { (0 < terminals c.now) × (n ≤ 256) × (row_of c.now n + n ≤ table_size) × (table_size ≤ length t.old) }
    ensures { Closed c.now e.now n t.old t.new r }
{
    match r {
        Ok(()) => cells::finish(c, t, e, n),
        Err(_) => t[..areas::TABLE].fill(0),
    }
}

// The cells, what stands in front of them and the zeros: the table, or the first cell where two actions meet.
pub fn fill(c: &[u16], t: &mut [u16], w: &mut [u32], z: &mut [u64], n: u16) -> Result<(), Conflict>
    requires { Stage c.now t.old w.old z.old n }
    ensures { Filled c.now t.old w.old z.old n t.new w.new z.new result }
{
    let keyed = keys(c);
    let r = rows(c, t, w, z, &keyed, n);
    let entered = entries(w, u32::from(n));
    z[..areas::WORDS].fill(0);
    w[..areas::HALVES].fill(0);
    close(c, t, &entered, n, r);
    r
}
