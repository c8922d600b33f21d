// The nonterminal transitions of a table area and what the relations between them are read from, in the 32-bit work area.
#![tactic(auto)]

ghost use Rattle.std.specs.Prelude.{◌≡◌, ℕ, ◌+◌, ◌*◌, ◌<◌, ◌≤◌, length, get_or};
ghost use Rattle.sets.specs.Bit.{bit};
ghost use Rattle.transitions.specs.Places.{starts_at, halves_end};
ghost use Rattle.transitions.specs.Area.{leaves_of, nonterminal_of, enters_of, first_of, entering_of, precedes, starting_of, last_of, production_of, dot_of, link_of, shortest_of, Paired};
ghost use Rattle.transitions.specs.Writes.{Stored, Preceded, Measured};

// How many nonterminal transitions the areas have places for.
pub const LIMIT: u32 = 2048;

// ---- where the parts of the 32-bit area begin, as in specs/Places.antt

pub const LEAVES_AT: usize = 0;

pub const NONTERMINALS_AT: usize = LEAVES_AT + LIMIT as usize;

pub const ENTERS_AT: usize = NONTERMINALS_AT + LIMIT as usize;

pub const FIRSTS_AT: usize = ENTERS_AT + LIMIT as usize;

pub const ENTERING_AT: usize = FIRSTS_AT + 257;

const PREDECESSORS_AT: usize = ENTERING_AT + 256;

pub const STARTS_AT: usize = PREDECESSORS_AT + 8 * 256;

pub const LASTS_AT: usize = STARTS_AT + 128;

pub const PRODUCTIONS_AT: usize = LASTS_AT + 60;

pub const DOTS_AT: usize = PRODUCTIONS_AT + 512;

pub const LINKS_AT: usize = DOTS_AT + 512;

pub const OCCURRENCES_AT: usize = LINKS_AT + 512;

const LENGTHS_AT: usize = OCCURRENCES_AT + 1;

// ---- and those of the 64-bit area

pub const NUMBERS_AT: usize = LIMIT as usize;

pub const STACK_AT: usize = NUMBERS_AT + LIMIT as usize;

pub const SHIFTS_AT: usize = STACK_AT + LIMIT as usize;

// ---- the area's numbers, each with an answer for every slice

// The number at place i, and 0 past the end.
fn at(w: &[u32], i: usize) -> u32
    ensures { result ≡ get_or w.now i 0 }
{
    w.get(i).copied().unwrap_or(0)
}

// The number i places behind place b, and 0 past the end.
fn after(w: &[u32], b: usize, i: u32) -> u32
    requires { b < 65536 }
    ensures { result ≡ get_or w.now (b + i) 0 }
{
    at(w, b + i as usize)
}

// The state that transition i leaves, its nonterminal, and the state that it enters.
pub fn leaves(w: &[u32], i: u32) -> u32
    ensures { result ≡ leaves_of w.now i }
{
    after(w, LEAVES_AT, i)
}

pub fn nonterminal(w: &[u32], i: u32) -> u32
    ensures { result ≡ nonterminal_of w.now i }
{
    after(w, NONTERMINALS_AT, i)
}

pub fn enters(w: &[u32], i: u32) -> u32
    ensures { result ≡ enters_of w.now i }
{
    after(w, ENTERS_AT, i)
}

// The number of the first transition of state q.
pub fn first(w: &[u32], q: u32) -> u32
    ensures { result ≡ first_of w.now q }
{
    after(w, FIRSTS_AT, q)
}

// The symbol under which state q is entered.
pub fn entering(w: &[u32], q: u32) -> u32
    ensures { result ≡ entering_of w.now q }
{
    after(w, ENTERING_AT, q)
}

// Where the symbols of production r begin.
pub fn starting(w: &[u32], r: u32) -> u32
    ensures { result ≡ starting_of w.now r }
{
    after(w, STARTS_AT, r)
}

// The last occurrence of nonterminal number j, plus 1, or 0.
pub fn last(w: &[u32], j: u32) -> u32
    ensures { result ≡ last_of w.now j }
{
    after(w, LASTS_AT, j)
}

// The production and the dot of occurrence o, and the occurrence before it, plus 1, or 0.
pub fn production(w: &[u32], o: u32) -> u32
    ensures { result ≡ production_of w.now o }
{
    after(w, PRODUCTIONS_AT, o)
}

pub fn dot(w: &[u32], o: u32) -> u32
    ensures { result ≡ dot_of w.now o }
{
    after(w, DOTS_AT, o)
}

pub fn link(w: &[u32], o: u32) -> u32
    ensures { result ≡ link_of w.now o }
{
    after(w, LINKS_AT, o)
}

// The shortest length of nonterminal number j.
pub fn shortest_length(w: &[u32], j: u32) -> u32
    ensures { result ≡ shortest_of w.now j }
{
    after(w, LENGTHS_AT, j)
}

// The two numbers from place i on as one of 64 bits.
fn pair(w: &[u32], i: usize) -> u64
    requires { i < 65536 }
    ensures { Paired w.now i result }
{
    u64::from(at(w, i)) + u64::from(at(w, i + 1)) * 4294967296
}

// Word j of the states that have a transition to state q, 64 states to a word.
pub fn predecessors(w: &[u32], q: u32, j: usize) -> u64
    requires { (q < 256) × (j < 4) }
    ensures { (m : ℕ) → m < 64 → bit result m ≡ precedes w.now q (64 * j + m) }
{
    pair(w, PREDECESSORS_AT + 8 * q as usize + 2 * j)
}

// ---- the writers

// Puts v down i places behind place b.
pub fn put(w: &mut [u32], b: usize, i: u32, v: u32)
    requires { b + i < length w.old }
    ensures { Stored w.old (b + i) v w.new }
{
    w[b + i as usize] = v;
}

// Puts down that state p has a transition to state q.
pub fn precede(w: &mut [u32], q: u32, p: u32)
    requires { (q < 256) × (p < 256) × (starts_at ≤ length w.old) }
    ensures { Preceded w.old q p w.new }
{
    let i = PREDECESSORS_AT + 8 * q as usize + (p / 32) as usize;
    w[i] |= 1 << (p % 32);
}

// Puts down the shortest lengths e of 60 nonterminals.
pub fn put_lengths(w: &mut [u32], e: &[u16; 60])
    requires { halves_end ≤ length w.old }
    ensures { Measured w.old e.now 60 w.new }
{
    for (j, x) in e.iter().enumerate() {
        w[LENGTHS_AT + j] = u32::from(*x);
    }
}
