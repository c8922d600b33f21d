// The places of a parse table.
#![tactic(auto)]

ghost use Rattle.std.specs.Prelude.{◌≡◌, ◌+◌, ◌*◌, ◌<◌, ◌≤◌, ◌^◌, length, get_or, drop};
ghost use Rattle.tables.specs.Layout.{productions, left_at, length_at, header_size, entered_at, cells_at, left_of, length_of, entered_of, size_of};
ghost use Rattle.tables.specs.Shape.{Shaped};

// The places of the sizes: states, terminals, nonterminals, productions.
pub const STATES: usize = 0;

pub const TERMINALS: usize = 1;

pub const NONTERMINALS: usize = 2;

pub const PRODUCTIONS: usize = 3;

// The place of the left side of production r.
pub fn left_at(r: usize) -> usize
    requires { left_at r < 2 ^ 64 }
    ensures { result ≡ left_at r }
{
    4 + r
}

// The place of the length of production r, of p.
pub fn length_at(p: usize, r: usize) -> usize
    requires { length_at p r < 2 ^ 64 }
    ensures { result ≡ length_at p r }
{
    4 + p + r
}

// How many numbers the sizes and both arrays of p productions are: the header.
pub fn header_size(p: usize) -> usize
    requires { header_size p < 2 ^ 64 }
    ensures { result ≡ header_size p }
{
    4 + 2 * p
}

// The place of the entry of state q, behind p productions.
pub fn entered_at(p: usize, q: usize) -> usize
    requires { entered_at p q < 2 ^ 64 }
    ensures { result ≡ entered_at p q }
{
    header_size(p) + q
}

// The place of the first cell, behind p productions and n states.
pub fn cells_at(p: usize, n: usize) -> usize
    requires { cells_at p n < 2 ^ 64 }
    ensures { result ≡ cells_at p n }
{
    entered_at(p, n)
}

// The sizes of a table, the cells of a row and the place of the first cell.
#[derive(Clone, Copy)]
pub struct Shape {
    pub states: usize,
    pub terminals: usize,
    pub productions: usize,
    pub width: usize,
    pub cells: usize,
}

#[tactic(auto, unfolding(crate::specs::Layout::states, crate::specs::Layout::terminals, crate::specs::Layout::nonterminals, crate::specs::Layout::productions, crate::specs::Layout::width))]
pub fn shape_of(t: &[u16]) -> Shape
    requires { 4 ≤ length t.now }
    ensures { Shaped t.now result }
{
    let q = t[STATES] as usize;
    let n = t[TERMINALS] as usize;
    let p = t[PRODUCTIONS] as usize;
    Shape {
        states: q,
        terminals: n,
        productions: p,
        width: n + t[NONTERMINALS] as usize,
        cells: cells_at(p, q),
    }
}

// How many numbers the sizes ask for.
#[tactic(auto, using(crate::proofs::Places::size_of_is, crate::proofs::Places::size_fits))]
pub fn size(t: &[u16], z: Shape) -> usize
    requires { Shaped t.now z }
    ensures { result ≡ size_of t.now }
{
    z.cells + z.states * z.width
}

// The left side of production r.
#[tactic(auto, unfolding(crate::specs::Layout::left_of))]
pub fn left(t: &[u16], r: usize) -> u16
    requires { left_at r < length t.now }
    ensures { result ≡ left_of t.now r }
{
    t[left_at(r)]
}

// The length of the right side of production r.
#[tactic(auto, unfolding(crate::specs::Layout::length_of))]
pub fn length_of(t: &[u16], z: Shape, r: usize) -> u16
    requires { (Shaped t.now z) × (length_at (productions t.now) r < length t.now) }
    ensures { result ≡ length_of t.now r }
{
    t[length_at(z.productions, r)]
}

// The entry of state q: in the maker's tables the symbol under which it is entered.
#[tactic(auto, unfolding(crate::specs::Layout::entered_of))]
pub fn entered(t: &[u16], z: Shape, q: usize) -> u16
    requires { (Shaped t.now z) × (entered_at (productions t.now) q < length t.now) }
    ensures { result ≡ entered_of t.now q }
{
    t[entered_at(z.productions, q)]
}

// The rows of cells.
pub fn cells_of(t: &[u16], z: Shape) -> &[u16]
    requires { z.cells ≤ length t.now }
    ensures { result.now ≡ drop z.cells t.now }
{
    &t[z.cells..]
}

// The cell at i behind place from: a row and a column, in either order.
pub fn cell_at(cells: &[u16], from: usize, i: usize) -> u16
    requires { from + i < length cells.now }
    ensures { result ≡ get_or cells.now (from + i) 0 }
{
    let part = &cells[from..];
    part[i]
}
