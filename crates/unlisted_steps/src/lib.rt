// One step of the reader's machine on a stack area alone: no production is listed, and a place popped keeps its number.
#![tactic(auto)]

ghost use Rattle.std.specs.Prelude.{◌≡◌, List, ℕ, ◌<◌, ◌^◌};
ghost use Rattle.tables.specs.Layout.{states, productions, left_of, length_of, cell_of};
ghost use Rattle.unlisted_steps.specs.Spot.{Readable, Stands, Standing, Shifts, Reduces};

use tables::Shape;

// The stack places in use, how many steps may still be made, and the state on top.
#[derive(Clone, Copy)]
pub struct Spot {
    pub depth: usize,
    pub left: u64,
    pub top: usize,
}

// Why a step cannot be made: no place is left, or the reduction would pop state 0 or leads to none.
#[derive(Clone, Copy)]
pub enum Stop {
    Full,
    Broken,
}

// The shift to state a: the spot behind it.
pub fn shift(second: &mut [u16], s: Spot, a: usize) -> Result<Spot, Stop>
    requires { (a < 2 ^ 16) × (0 < s.left) }
    ensures { (t : List ℕ) (q : ℕ) (qs : List ℕ) → Stands t second.old s q qs → a < states t → Shifts t second.new s q qs a result }
{
    let at = s.depth;
    if at < second.len() {
        second[at] = a as u16;
        Ok(Spot {
            depth: at + 1,
            left: s.left - 1,
            top: a,
        })
    } else {
        Err(Stop::Full)
    }
}

// The state to go to from the state under by the left side of production r, or 0.
fn goto(table: &[u16], cells: &[u16], z: Shape, under: usize, r: usize) -> usize
    requires { (Readable table.now cells.now z) × (under < states table.now) × (r < productions table.now) }
    ensures { (result ≡ cell_of table.now under (left_of table.now r)) × (result < states table.now) }
{
    let left = tables::left(table, r) as usize;
    tables::cell_at(cells, under * z.width, left) as usize
}

// The reduction by production r, whose length is 0.
fn reduce_empty(
    table: &[u16],
    cells: &[u16],
    second: &mut [u16],
    z: Shape,
    s: Spot,
    r: usize,
) -> Result<Spot, Stop>
    requires { (Readable table.now cells.now z) × (Standing table.now second.old s) × (r < productions table.now) × (length_of table.now r ≡ 0) × (0 < s.left) }
    ensures { (q : ℕ) (qs : List ℕ) → Stands table.now second.old s q qs → Reduces table.now second.new s q qs r result }
{
    let q = goto(table, cells, z, s.top, r);
    if q == 0 {
        return Err(Stop::Broken);
    }
    shift(second, s, q)
}

// The reduction by production r, whose length is n.
fn reduce_of(
    table: &[u16],
    cells: &[u16],
    second: &mut [u16],
    z: Shape,
    s: Spot,
    r: usize,
    n: usize,
) -> Result<Spot, Stop>
    requires { (Readable table.now cells.now z) × (Standing table.now second.old s) × (r < productions table.now) × (length_of table.now r ≡ n) × (0 < s.left) }
    ensures { (q : ℕ) (qs : List ℕ) → Stands table.now second.old s q qs → Reduces table.now second.new s q qs r result }
{
    if s.depth <= n {
        return Err(Stop::Broken);
    }
    let d = s.depth - n;
    let under = second[d - 1] as usize;
    let q = goto(table, cells, z, under, r);
    if q == 0 {
        return Err(Stop::Broken);
    }
    let popped = Spot {
        depth: d,
        left: s.left,
        top: under,
    };
    shift(second, popped, q)
}

// The reduction by production r, of any length.
pub fn reduce_any(
    table: &[u16],
    cells: &[u16],
    second: &mut [u16],
    z: Shape,
    s: Spot,
    r: usize,
) -> Result<Spot, Stop>
    requires { (Readable table.now cells.now z) × (Standing table.now second.old s) × (r < productions table.now) × (0 < s.left) }
    ensures { (q : ℕ) (qs : List ℕ) → Stands table.now second.old s q qs → Reduces table.now second.new s q qs r result }
{
    let n = tables::length_of(table, z, r) as usize;
    reduce_of(table, cells, second, z, s, r, n)
}

// The same, for a loop that reduces often. The usual lengths stand apart: where the length is guessed right, the state
// under the popped ones is read without waiting for it.
pub fn reduce(
    table: &[u16],
    cells: &[u16],
    second: &mut [u16],
    z: Shape,
    s: Spot,
    r: usize,
) -> Result<Spot, Stop>
    requires { (Readable table.now cells.now z) × (Standing table.now second.old s) × (r < productions table.now) × (0 < s.left) }
    ensures { (q : ℕ) (qs : List ℕ) → Stands table.now second.old s q qs → Reduces table.now second.new s q qs r result }
{
    let n = tables::length_of(table, z, r) as usize;
    if n < 2 {
        if n == 0 {
            reduce_empty(table, cells, second, z, s, r)
        } else {
            reduce_of(table, cells, second, z, s, r, 1)
        }
    } else if n < 4 {
        if n == 2 {
            reduce_of(table, cells, second, z, s, r, 2)
        } else {
            reduce_of(table, cells, second, z, s, r, 3)
        }
    } else {
        reduce_of(table, cells, second, z, s, r, n)
    }
}
