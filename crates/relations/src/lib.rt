// The relations reads and includes between nonterminal transitions, edge by edge.
#![tactic(auto)]

ghost use Rattle.std.specs.Prelude.{true, false, List, ℕ, ◌<◌, ◌≤◌};
ghost use Rattle.sets.specs.Bit.{Tells};
ghost use Rattle.grammar.specs.Card.{productions, length_of};
ghost use Rattle.transitions.specs.Area.{occurrences_of, shortest_of};
ghost use Rattle.transitions.specs.Occurrences.{Nullable};
ghost use Rattle.transitions.specs.Data.{Ordered};
ghost use Rattle.relations.specs.Path.{Leads, States};
ghost use Rattle.relations.specs.Walk.{Node, Standing, Firsts, Nexts};
ghost use Rattle.relations.specs.Steps.{Adds, Into, Opens, Index};

#[derive(Clone, Copy)]
pub enum Relation {
    Includes,
    Reads,
}

// A place in the walk along the edges of a node. Reads: `at` is a transition. Includes: `at` - 1 is an occurrence, and `set` the states of it that are left.
#[derive(Clone, Copy)]
pub struct Cursor {
    pub at: u32,
    pub set: [u64; 4],
}

// An edge to `node`, and the place behind it.
#[derive(Clone, Copy)]
pub struct Found {
    pub node: u32,
    pub cursor: Cursor,
}

// s and, where q is entered by x, the states that have a transition to q.
fn join_predecessors(w: &[u32], s: [u64; 4], x: u32, q: u32) -> [u64; 4]
    requires { q < 256 }
    ensures { Adds w.now s x q result }
{
    if transitions::entering(w, q) != x {
        return s;
    }
    let mut t = s;
    for j in 0..4 {
        t[j] |= transitions::predecessors(w, q, j);
    }
    t
}

// The states that have a transition by x to a state of s.
fn predecessors(w: &[u32], s: [u64; 4], x: u32) -> [u64; 4]
    ensures { States result (Into w.now s x) }
{
    let mut left = s;
    let mut t = state_sets::empty();
    let mut q = state_sets::lowest(s);
    while q < 256 {
        let more = join_predecessors(w, t, x, q);
        t = more;
        let rest = state_sets::without(left, q);
        left = rest;
        q = state_sets::lowest(rest);
    }
    t
}

// The states from which the first d symbols of production r lead to state q.
pub fn back(c: &[u16], w: &[u32], q: u32, r: u32, d: u32) -> [u64; 4]
    requires { ((k : ℕ) × Ordered c.now w.now k) × (q < 256) × (r < productions c.now) × (d ≤ length_of c.now r) }
    ensures { States result (Leads c.now w.now r d q) }
{
    let b = transitions::starting(w, r);
    let mut s = state_sets::with(state_sets::empty(), q);
    for i in (0..d).rev() {
        if state_sets::lowest(s) == 256 {
            return s;
        }
        let t = predecessors(w, s, u32::from(card::symbol(c, b + i)));
        s = t;
    }
    s
}

// The number of the transition from state p by the nonterminal x, where there is one.
pub fn index(w: &[u32], p: u32, x: u32) -> Option<u32>
    requires { p < 256 }
    ensures { (c : List ℕ) (k : ℕ) → Ordered c w.now k → Index w.now k p x result }
{
    let start = transitions::first(w, p);
    let end = transitions::first(w, p + 1);
    (start..end).find(|i| transitions::nonterminal(w, *i) == x)
}

// Whether x is a nullable nonterminal: one whose shortest length is 0.
fn nullable(c: &[u16], w: &[u32], x: u32) -> bool
    ensures { Tells result (Nullable c.now (shortest_of w.now) x) }
{
    let t = u32::from(card::terminals(c));
    x >= t && transitions::shortest_length(w, x - t) == 0
}

fn first_reads(w: &[u32], x: u32) -> Cursor
    ensures { (c : List ℕ) (k : ℕ) → Ordered c w.now k → x < k → Firsts Relation.Reads c w.now k x result }
{
    Cursor {
        at: transitions::first(w, transitions::enters(w, x)),
        set: state_sets::empty(),
    }
}

fn next_reads(c: &[u16], w: &[u32], x: u32, cursor: Cursor) -> Option<Found>
    requires { Standing Relation.Reads c.now w.now x cursor }
    ensures { (k : ℕ) → Ordered c.now w.now k → Nexts Relation.Reads c.now w.now k x cursor result }
{
    let end = transitions::first(w, transitions::enters(w, x) + 1);
    let set = cursor.set;
    for i in cursor.at..end {
        if nullable(c, w, transitions::nonterminal(w, i)) {
            let rest = Cursor { at: i + 1, set };
            return Some(Found {
                node: i,
                cursor: rest,
            });
        }
    }
    None
}

// The states from which occurrence a - 1 leads to state q; none where a is 0.
fn opened(c: &[u16], w: &[u32], q: u32, a: u32) -> [u64; 4]
    requires { ((k : ℕ) × Ordered c.now w.now k) × (q < 256) × (a ≤ occurrences_of w.now) }
    ensures { States result (Opens c.now w.now q a) }
{
    if a == 0 {
        return state_sets::empty();
    }
    back(
        c,
        w,
        q,
        transitions::production(w, a - 1),
        transitions::dot(w, a - 1),
    )
}

fn first_includes(c: &[u16], w: &[u32], x: u32) -> Cursor
    requires { Node c.now w.now x }
    ensures { (k : ℕ) → Ordered c.now w.now k → Firsts Relation.Includes c.now w.now k x result }
{
    let t = u32::from(card::terminals(c));
    let at = transitions::last(w, transitions::nonterminal(w, x) - t);
    let set = opened(c, w, transitions::leaves(w, x), at);
    Cursor { at, set }
}

fn next_includes(c: &[u16], w: &[u32], x: u32, cursor: Cursor) -> Option<Found>
    requires { Standing Relation.Includes c.now w.now x cursor }
    ensures { (k : ℕ) → Ordered c.now w.now k → Nexts Relation.Includes c.now w.now k x cursor result }
{
    let q = transitions::leaves(w, x);
    let mut at = cursor.at;
    let mut set = cursor.set;
    while at != 0 {
        let p = state_sets::lowest(set);
        if p < 256 {
            let rest = state_sets::without(set, p);
            set = rest;
            let left = card::left(c, transitions::production(w, at - 1) as u16);
            if let Some(y) = index(w, p, u32::from(left)) {
                let next = Cursor { at, set: rest };
                return Some(Found {
                    node: y,
                    cursor: next,
                });
            }
        } else {
            at = transitions::link(w, at - 1);
            let whole = opened(c, w, q, at);
            set = whole;
        }
    }
    None
}

// The cursor before all edges of x.
pub fn first_edge(relation: Relation, c: &[u16], w: &[u32], x: u32) -> Cursor
    requires { Node c.now w.now x }
    ensures { (k : ℕ) → Ordered c.now w.now k → Firsts relation c.now w.now k x result }
{
    match relation {
        Relation::Reads => first_reads(w, x),
        Relation::Includes => first_includes(c, w, x),
    }
}

// The next edge of x that the cursor gives.
pub fn next_edge(relation: Relation, c: &[u16], w: &[u32], x: u32, cursor: Cursor) -> Option<Found>
    requires { Standing relation c.now w.now x cursor }
    ensures { (k : ℕ) → Ordered c.now w.now k → Nexts relation c.now w.now k x cursor result }
{
    match relation {
        Relation::Reads => next_reads(c, w, x, cursor),
        Relation::Includes => next_includes(c, w, x, cursor),
    }
}
