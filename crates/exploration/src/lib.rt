// Which terminals can follow a line: the fresh readings of all open terminals, made together.
#![tactic(auto)]

ghost use Rattle.std.specs.Prelude.{◌≡◌, true, List, ◌↔◌, ℕ, ◌+◌, ◌*◌, ◌<◌, ◌≤◌, length, get_or, drop};
ghost use Rattle.sets.specs.Bit.{Has, Tells};
ghost use Rattle.tables.specs.Layout.{terminals};
ghost use Rattle.machine.specs.Checks.{input_ok, closed_ok};
ghost use Rattle.machine.proofs.Checked.{Checked};
ghost use Rattle.unlisted_steps.specs.Spot.{Readable};
ghost use Rattle.exploration.specs.Expected.{Explores};
ghost use Rattle.exploration.specs.Reaches.{Reaches};
ghost use Rattle.exploration.specs.Phases.{Arrives, Short, Puts, Sorts, Passes, Deciding};

use tables::Shape;
use unlisted_steps::{Spot, Stop};

// That a fresh reading ran out of steps or places, or broke off.
#[derive(Clone, Copy)]
pub struct Cut;

impl From<Stop> for Cut {
    fn from(_stop: Stop) -> Cut {
        Cut
    }
}

// Terminals by what their cells in one row ask for: a shift or acceptance, the reduction by a production, or another one.
#[derive(Clone, Copy)]
struct Sorted {
    found: u64,
    same: u64,
    later: u64,
    production: usize,
}

// What comes of a pass: the terminals found, and those left for a later one.
#[derive(Clone, Copy)]
struct Passed {
    found: u64,
    later: u64,
}

// All n terminals.
fn all(n: usize) -> u64
    requires { (0 < n) × (n ≤ 64) }
    ensures { (m : ℕ) → Has result m ↔ (m < n) }
{
    u64::MAX >> (64 - n)
}

// The spot before a line: state 0 alone, and all steps left.
pub fn begin(second: &mut [u16], step_limit: u64) -> Spot
    requires { 0 < length second.old }
    ensures { (t line : List ℕ) → Checked t → Reaches t step_limit (length second.old) line second.new line result }
{
    second[0] = 0;
    Spot {
        depth: 1,
        left: step_limit,
        top: 0,
    }
}

// Reads the line alone, from a spot with some of its terminals passed: the spot behind it, or none where a terminal of it has no action.
fn arrive(
    table: &[u16],
    cells: &[u16],
    line: &[u8],
    second: &mut [u16],
    z: Shape,
    from: Spot,
    passed: usize,
    step_limit: u64,
) -> Result<Option<Spot>, Cut>
    requires { (Readable table.now cells.now z) × (input_ok table.now line.now ≡ true) × (Reaches table.now step_limit (length second.old) line.now second.old (drop passed line.now) from) }
    ensures { Arrives table.now step_limit (length second.old) line.now second.new result }
{
    let mut s = from;
    let mut i = passed;
    while i < line.len() {
        let a = tables::cell_at(cells, line[i] as usize, s.top * z.width) as usize;
        if a == 0 {
            return Ok(None);
        }
        if s.left == 0 {
            return Err(Cut);
        }
        if a < 1024 {
            s = unlisted_steps::shift(second, s, a)?;
            i += 1;
        } else {
            s = unlisted_steps::reduce(table, cells, second, z, s, a - 1024)?;
        }
    }
    Ok(Some(s))
}

// Whether the action a cannot be made for want of a step, or as a shift for want of a place.
fn short(s: Spot, places: usize, a: usize) -> bool
    ensures { Tells result (Short s places a) }
{
    s.left == 0 || (a < 1024 && places <= s.depth)
}

// The terminal m, whose action is a, put to the others.
fn put(r: Sorted, m: u32, a: usize) -> Sorted
    requires { m < 64 }
    ensures { Puts r m a result }
{
    if a < 1024 || a == 4096 {
        Sorted {
            found: sets::with(r.found, m),
            ..r
        }
    } else if r.same == 0 {
        Sorted {
            same: sets::with(0, m),
            production: a - 1024,
            ..r
        }
    } else if r.production == a - 1024 {
        Sorted {
            same: sets::with(r.same, m),
            ..r
        }
    } else {
        Sorted {
            later: sets::with(r.later, m),
            ..r
        }
    }
}

// Sorts the terminals of a group by the row of the top state.
fn sort(cells: &[u16], z: Shape, s: Spot, places: usize, group: u64) -> Result<Sorted, Cut>
    requires { (s.top * z.width + z.terminals ≤ length cells.now) × ((m : ℕ) → Has group m → m < z.terminals) }
    ensures { Sorts (λ m. get_or cells.now (s.top * z.width + m) 0) s places group result }
{
    let row = s.top * z.width;
    let mut r = Sorted {
        found: 0,
        same: 0,
        later: 0,
        production: 0,
    };
    let mut g = group;
    while g != 0 {
        let m = sets::lowest(g);
        let a = tables::cell_at(cells, row, m as usize) as usize;
        if a != 0 {
            if short(s, places, a) {
                return Err(Cut);
            }
            r = put(r, m, a);
        }
        g = sets::rest(g);
    }
    Ok(r)
}

// Reads the line from a spot, and goes on for the terminals of todo as long as one reduction serves some of them.
fn pass(
    table: &[u16],
    cells: &[u16],
    line: &[u8],
    second: &mut [u16],
    z: Shape,
    from: Spot,
    passed: usize,
    step_limit: u64,
    todo: u64,
) -> Result<Option<Passed>, Cut>
    requires { (Readable table.now cells.now z) × (input_ok table.now line.now ≡ true) × (Reaches table.now step_limit (length second.old) line.now second.old (drop passed line.now) from) × ((m : ℕ) → Has todo m → m < terminals table.now) }
    ensures { Passes table.now step_limit (length second.old) line.now todo result }
{
    let arrived = arrive(table, cells, line, second, z, from, passed, step_limit)?;
    let Some(mut s) = arrived else {
        return Ok(None);
    };
    let mut group = todo;
    let mut found: u64 = 0;
    let mut later: u64 = 0;
    loop {
        let x = sort(cells, z, s, second.len(), group)?;
        found = sets::join(found, x.found);
        later = sets::join(later, x.later);
        if x.same == 0 {
            return Ok(Some(Passed { found, later }));
        }
        s = unlisted_steps::reduce_any(table, cells, second, z, s, x.production)?;
        group = x.same;
    }
}

// The passes after the first, which has found some terminals and left others undecided: each reads the line anew.
fn others(
    table: &[u16],
    cells: &[u16],
    line: &[u8],
    closed: u64,
    second: &mut [u16],
    z: Shape,
    step_limit: u64,
    first: u64,
    undecided: u64,
) -> Result<u64, Cut>
    requires { (Readable table.now cells.now z) × (closed_ok table.now closed ≡ true) × (input_ok table.now line.now ≡ true) × (0 < length second.old) × (Deciding table.now closed step_limit (length second.old) line.now undecided first) }
    ensures { Explores table.now closed step_limit (length second.old) line.now result }
{
    let mut todo = undecided;
    let mut found = first;
    while todo != 0 {
        let s = begin(second, step_limit);
        let n = pass(table, cells, line, second, z, s, 0, step_limit, todo)?;
        let Some(p) = n else {
            return Ok(0);
        };
        found = sets::join(found, p.found);
        todo = p.later;
    }
    Ok(found)
}

// Which terminals can follow the line, but for the closed ones, by fresh readings in the second area. The first pass goes
// on from a spot that the caller has come to with some terminals of the line passed; it is mostly the only one, and stands
// apart: with two callers a pass is compiled by itself, and not into the loop of the parser, which would slow it.
pub fn explore(
    table: &[u16],
    line: &[u8],
    closed: u64,
    second: &mut [u16],
    from: Spot,
    passed: usize,
    step_limit: u64,
) -> Result<u64, Cut>
    requires { (Checked table.now) × (closed_ok table.now closed ≡ true) × (input_ok table.now line.now ≡ true) × (0 < length second.old) × (passed ≤ length line.now) × (Reaches table.now step_limit (length second.old) line.now second.old (drop passed line.now) from) }
    ensures { Explores table.now closed step_limit (length second.old) line.now result }
{
    let z = tables::shape_of(table);
    let cells = tables::cells_of(table, z);
    let todo = sets::minus(all(z.terminals), closed);
    let n = pass(
        table, cells, line, second, z, from, passed, step_limit, todo,
    )?;
    let Some(p) = n else {
        return Ok(0);
    };
    others(
        table, cells, line, closed, second, z, step_limit, p.found, p.later,
    )
}
