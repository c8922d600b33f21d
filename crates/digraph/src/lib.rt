// The Digraph algorithm of DeRemer and Pennello: completes sets along a relation in one depth-first walk, in which the nodes of
// a cycle come to share one set. It knows nodes 0 to k - 1 and the edges that crate relations gives, not what they mean.
// In the area z: the set of node v at v, its number at NUMBERS_AT + v, position p of the stack at STACK_AT + p.
// Each node is entered once, and each edge that the relation gives is followed once.
#![tactic(auto)]

ghost use Rattle.std.specs.Prelude.{◌≡◌, ℕ, ◌+◌, ◌<◌, ◌≤◌, min, length, set};
ghost use Rattle.std.specs.Int.Bits.{bit_or};
ghost use Rattle.areas.specs.Areas.{words_size};
ghost use Rattle.transitions.specs.Places.{transition_limit, numbers_at, stack_at};
ghost use Rattle.transitions.specs.Data.{Ordered};
ghost use Rattle.relations.specs.Edge.{Edge};
ghost use Rattle.digraph.specs.Walked.{Walked, at};
ghost use Rattle.digraph.specs.Walk.{Room, Entered, Visited, Scanned, Popped, Finished, Cleared, None, num_in, stk_in};

use relations::{Found, Relation};

// The number of a node whose set is complete (the paper's infinity).
const COMPLETE: u64 = 65535;

// Puts x on the stack, with the number of its position.
fn push(z: &mut [u64], x: usize, depth: usize)
    requires { (words_size ≤ length z.old) × (x < transition_limit) × (depth < transition_limit) }
    ensures { z.new ≡ set (set z.old (stack_at + depth) x) (numbers_at + x) (depth + 1) }
{
    z[transitions::STACK_AT + depth] = x as u64;
    z[transitions::NUMBERS_AT + x] = (depth + 1) as u64;
}

// Joins the set of y to that of x, and makes x's low number the lower of both.
fn join(z: &mut [u64], x: usize, y: usize)
    requires { (words_size ≤ length z.old) × (x < transition_limit) × (y < transition_limit) }
    ensures { z.new ≡ set (set z.old x (bit_or (at z.old x) (at z.old y))) (numbers_at + x) (min (num_in z.old x) (num_in z.old y)) }
{
    z[x] |= z[y];
    let low = z[transitions::NUMBERS_AT + y];
    z[transitions::NUMBERS_AT + x] = z[transitions::NUMBERS_AT + x].min(low);
}

// Makes v complete, with the set s.
fn settle(z: &mut [u64], v: usize, s: u64)
    requires { (words_size ≤ length z.old) × (v < transition_limit) }
    ensures { z.new ≡ set (set z.old (numbers_at + v) 65535) v s }
{
    z[transitions::NUMBERS_AT + v] = COMPLETE;
    z[v] = s;
}

// Pops the positions from `base` on; each popped node is complete, with the set s.
fn pop(z: &mut [u64], k: usize, base: usize, depth: usize, s: u64)
    requires { (base ≤ depth) × (depth ≤ k) × (k ≤ transition_limit) × (words_size ≤ length z.old) × ((p : ℕ) → p < depth → stk_in z.old p < k) }
    ensures { Popped k base depth s z.old z.new }
{
    for p in (base..depth).rev() {
        let v = z[transitions::STACK_AT + p] as usize;
        settle(z, v, s);
    }
}

// Pops all from x on, which stands at `base`, where nothing from there leads below x: all these nodes are on cycles with x.
fn finish(z: &mut [u64], k: usize, x: usize, base: usize, depth: usize) -> usize
    requires { (base ≤ depth) × (depth ≤ k) × (k ≤ transition_limit) × (words_size ≤ length z.old) × ((p : ℕ) → p < depth → stk_in z.old p < k) × (x < k) }
    ensures { Finished k x base depth z.old z.new result }
{
    if z[transitions::NUMBERS_AT + x] as usize == base + 1 {
        let s = z[x];
        pop(z, k, base, depth, s);
        base
    } else {
        depth
    }
}

// Enters x, which is not visited, with `depth` nodes on the stack; gives the number of nodes on it afterwards, as visit and scan do.
#[cycle(enter_scan_visit)]
fn enter(
    relation: Relation,
    c: &[u16],
    w: &[u32],
    z: &mut [u64],
    k: usize,
    x: usize,
    depth: usize,
) -> usize
    requires { Room k z.old depth × Ordered c.now w.now k × (x < k) × (num_in z.old x ≡ 0) }
    ensures { Entered (Edge relation c.now w.now k) k z.old depth x z.new result }
{
    push(z, x, depth);
    let d = scan(relation, c, w, z, k, x, depth + 1);
    finish(z, k, x, depth, d)
}

// Follows the edges of x, which is on the stack.
#[cycle(enter_scan_visit)]
fn scan(
    relation: Relation,
    c: &[u16],
    w: &[u32],
    z: &mut [u64],
    k: usize,
    x: usize,
    depth: usize,
) -> usize
    requires { Room k z.old depth × Ordered c.now w.now k × (x < k) }
    ensures { Scanned (Edge relation c.now w.now k) k z.old depth x z.new result None }
{
    let mut d = depth;
    let mut cursor = relations::first_edge(relation, c, w, x as u32);
    while let Some(Found { node, cursor: rest }) = relations::next_edge(
        relation, c, w, x as u32, cursor,
    ) {
        let y = node as usize;
        d = visit(relation, c, w, z, k, y, d);
        join(z, x, y);
        cursor = rest;
    }
    d
}

// Enters y unless it is visited.
#[cycle(enter_scan_visit)]
fn visit(
    relation: Relation,
    c: &[u16],
    w: &[u32],
    z: &mut [u64],
    k: usize,
    y: usize,
    depth: usize,
) -> usize
    requires { Room k z.old depth × Ordered c.now w.now k × (y < k) }
    ensures { Visited (Edge relation c.now w.now k) k z.old depth y z.new result }
{
    if z[transitions::NUMBERS_AT + y] == 0 {
        enter(relation, c, w, z, k, y, depth)
    } else {
        depth
    }
}

// Makes the nodes 0 to k - 1 not visited.
fn clear(z: &mut [u64], k: usize)
    requires { (k ≤ transition_limit) × (words_size ≤ length z.old) }
    ensures { Cleared k z.old z.new }
{
    z[transitions::NUMBERS_AT..transitions::NUMBERS_AT + k].fill(0);
}

// Completes the sets of the nodes 0 to k - 1 along the relation.
pub fn complete(relation: Relation, c: &[u16], w: &[u32], z: &mut [u64], k: usize)
    requires { Ordered c.now w.now k × (k ≤ transition_limit) × (words_size ≤ length z.old) }
    ensures { Walked (Edge relation c.now w.now k) k z.old z.new }
{
    clear(z, k);
    for x in 0..k {
        visit(relation, c, w, z, k, x, 0);
    }
}
