// One step of the reader's machine, over a table and an input that were checked.
#![tactic(auto)]

ghost use Rattle.std.specs.Prelude.{◌≡◌, List, cond, not, ◌&&◌, ℕ, ◌+◌, ◌*◌, ◌-◌, ◌<◌, ◌≤◌, ◌^◌, get_or, length, ltb};
ghost use Rattle.tables.specs.Layout.{productions, left_of, length_of, cell_of};
ghost use Rattle.machine.specs.ComputedRun.{popped, shifted, reduced_to, reduced, moved_by};
ghost use Rattle.tables.specs.declared.Shape.{Shape};
ghost use Rattle.steps.specs.State.{machine_of, unaccepted, Held, Stepped, Reducible, Steppable};

use tables::Shape;

// The stack places in use, the productions listed, the terminals passed, how many steps may still be made, and the
// state on top. The steps made need no counter: each has passed a terminal or listed a production.
#[derive(Clone, Copy)]
pub struct State {
    pub depth: usize,
    pub listed: usize,
    pub position: usize,
    pub left: u64,
    pub top: usize,
}

// Why a step cannot be made.
#[derive(Clone, Copy)]
pub enum Stop {
    StackFull,
    ListFull,
    Broken,
}

// Pops n states: their places become 0.
fn pop(stack: &mut [u16], depth: usize, n: usize)
    requires { (n ≤ depth) × (depth ≤ length stack.old) }
    ensures { stack.new ≡ popped stack.old depth n }
{
    stack[depth - n..depth].fill(0);
}

// The cell of the top state and the next terminal. Behind the line stands the end of the input, or else a bar: then it is 0.
pub fn action(cells: &[u16], line: &[u8], barred: bool, z: Shape, s: State) -> usize
    requires { get_or line.now s.position 0 + s.top * z.width < length cells.now }
    ensures { (result ≡ cond (barred && not (ltb s.position (length line.now))) 0 (get_or cells.now (get_or line.now s.position 0 + s.top * z.width) 0)) × (result < 2 ^ 16) }
{
    let terminal = match line.get(s.position) {
        Some(x) => *x as usize,
        None if barred => return 0,
        None => 0,
    };
    tables::cell_at(cells, terminal, s.top * z.width) as usize
}

fn shift(stack: &mut [u16], s: State, a: usize) -> Result<State, Stop>
    requires { (a < 2 ^ 16) × (s.position < 65535) × (0 < s.left) }
    ensures { (t cs li : List ℕ) (z : Shape) → Held t cs stack.old li z s → a < z.states → Stepped t cs z s stack.new li (unaccepted result) (shifted a (machine_of stack.old li s)) }
{
    let at = s.depth;
    if at < stack.len() {
        let left = s.left - 1;
        stack[at] = a as u16;
        Ok(State {
            depth: at + 1,
            position: s.position + 1,
            left,
            top: a,
            ..s
        })
    } else {
        Err(Stop::StackFull)
    }
}

// The reduction by production r of n symbols, above the state under.
fn reduce_from(
    table: &[u16],
    cells: &[u16],
    stack: &mut [u16],
    list: &mut [u16],
    z: Shape,
    s: State,
    r: usize,
    n: usize,
    under: usize,
) -> Result<State, Stop>
    requires { Reducible table.now cells.now stack.old list.old z s r n under }
    ensures { Stepped table.now cells.now z s stack.new list.new (unaccepted result) (reduced_to r n (s.depth - n) (cell_of table.now under (left_of table.now r)) (machine_of stack.old list.old s)) }
{
    let d = s.depth - n;
    let k = s.listed;
    let left = tables::left(table, r) as usize;
    let q = tables::cell_at(cells, under * z.width, left);
    if q == 0 {
        return Err(Stop::Broken);
    }
    if d < stack.len() {
        pop(stack, s.depth, n);
        stack[d] = q;
        list[k] = r as u16;
        Ok(State {
            depth: d + 1,
            listed: k + 1,
            left: s.left - 1,
            top: q as usize,
            ..s
        })
    } else {
        Err(Stop::StackFull)
    }
}

// The reduction by production r, whose length is 0.
fn reduce_empty(
    table: &[u16],
    cells: &[u16],
    stack: &mut [u16],
    list: &mut [u16],
    z: Shape,
    s: State,
    r: usize,
) -> Result<State, Stop>
    requires { (Held table.now cells.now stack.old list.old z s) × (r < productions table.now) × (length_of table.now r ≡ 0) × (0 < s.left) }
    ensures { Stepped table.now cells.now z s stack.new list.new (unaccepted result) (reduced table.now r (machine_of stack.old list.old s)) }
{
    let k = s.listed;
    if k < list.len() {
        return reduce_from(table, cells, stack, list, z, s, r, 0, s.top);
    }
    Err(Stop::ListFull)
}

// The reduction by production r, whose length is n.
fn reduce(
    table: &[u16],
    cells: &[u16],
    stack: &mut [u16],
    list: &mut [u16],
    z: Shape,
    s: State,
    r: usize,
    n: usize,
) -> Result<State, Stop>
    requires { (Held table.now cells.now stack.old list.old z s) × (r < productions table.now) × (length_of table.now r ≡ n) × (0 < s.left) }
    ensures { Stepped table.now cells.now z s stack.new list.new (unaccepted result) (reduced table.now r (machine_of stack.old list.old s)) }
{
    if s.listed < list.len() {
        if n < s.depth {
            let under = stack[s.depth - n - 1] as usize;
            reduce_from(table, cells, stack, list, z, s, r, n, under)
        } else {
            Err(Stop::Broken)
        }
    } else {
        Err(Stop::ListFull)
    }
}

// The reduction by production r. The usual lengths stand apart: where the length is guessed right,
// the state under the popped ones is read without waiting for it.
fn reduce_by(
    table: &[u16],
    cells: &[u16],
    stack: &mut [u16],
    list: &mut [u16],
    z: Shape,
    s: State,
    r: usize,
) -> Result<State, Stop>
    requires { (Held table.now cells.now stack.old list.old z s) × (r < productions table.now) × (0 < s.left) }
    ensures { Stepped table.now cells.now z s stack.new list.new (unaccepted result) (reduced table.now r (machine_of stack.old list.old s)) }
{
    let n = tables::length_of(table, z, r) as usize;
    if n < 2 {
        if n == 0 {
            reduce_empty(table, cells, stack, list, z, s, r)
        } else {
            reduce(table, cells, stack, list, z, s, r, 1)
        }
    } else if n < 4 {
        if n == 2 {
            reduce(table, cells, stack, list, z, s, r, 2)
        } else {
            reduce(table, cells, stack, list, z, s, r, 3)
        }
    } else {
        reduce(table, cells, stack, list, z, s, r, n)
    }
}

// The step that a cell other than 0 asks for; none where the input is accepted.
pub fn step(
    table: &[u16],
    cells: &[u16],
    stack: &mut [u16],
    list: &mut [u16],
    z: Shape,
    s: State,
    a: usize,
) -> Result<Option<State>, Stop>
    requires { Steppable table.now cells.now stack.old list.old z s a }
    ensures { Stepped table.now cells.now z s stack.new list.new result (moved_by table.now a (machine_of stack.old list.old s)) }
{
    if a < 1024 {
        shift(stack, s, a).map(Some)
    } else if a == 4096 {
        Ok(None)
    } else {
        reduce_by(table, cells, stack, list, z, s, a - 1024).map(Some)
    }
}
