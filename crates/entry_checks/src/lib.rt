// The reader's check of the entries of a table's states: 44.
#![tactic(auto)]

ghost use Rattle.std.specs.Prelude.{◌≡◌, ◌+◌, ◌^◌, ◌<◌, length, get_or};
ghost use Rattle.sets.specs.Tests.{all_below};
ghost use Rattle.tables.specs.Layout.{states};
ghost use Rattle.machine.specs.Checks.{entry_ok, names_ok, row_names_ok, entries_ok};
ghost use Rattle.cell_checks.specs.Rows.{Whole};
ghost use Rattle.entry_checks.specs.Names.{unnamed};

use tables::Shape;

// Whether the entry of each state is a symbol.
#[tactic(auto, using(sets::proofs::TestLaws::all_step), unfolding(sets::specs::Tests::all_below, machine::specs::Checks::entry_ok))]
fn entries_below(t: &[u16], z: Shape) -> bool
    requires { Whole t.now z }
    ensures { result ≡ all_below (states t.now) (entry_ok t.now) }
{
    let w = z.width as u16;
    let mut ok = true;
    for q in 0..z.states {
        ok &= tables::entered(t, z, q) < w;
    }
    ok
}

// Whether none of these cells names a state below q.
#[tactic(auto, using(sets::proofs::TestLaws::all_step), unfolding(sets::specs::Tests::all_below, crate::specs::Names::unnamed))]
fn none_named(cells: &[u16], q: u16) -> bool
    ensures { result ≡ all_below (length cells.now) (λ i. unnamed q (get_or cells.now i 0)) }
{
    let mut ok = true;
    for &v in cells {
        ok &= (v == 0) | (q <= v);
    }
    ok
}

// Whether cell v of column x names no state, or one that is entered under x.
#[tactic(auto, unfolding(machine::specs::Checks::names_ok))]
fn name_ok(t: &[u16], z: Shape, x: usize, v: u16) -> bool
    requires { Whole t.now z }
    ensures { result ≡ names_ok t.now x v }
{
    let q = v as usize;
    q == 0 || z.states <= q || tables::entered(t, z, q) as usize == x
}

// The same of cells of a row, column x being the first.
#[tactic(auto, using(sets::proofs::TestLaws::all_more), unfolding(sets::specs::Tests::all_below))]
fn names_ok(t: &[u16], z: Shape, cells: &[u16], x: usize) -> bool
    requires { (Whole t.now z) × (x + length cells.now < 2 ^ 64) }
    ensures { result ≡ all_below (length cells.now) (λ i. names_ok t.now (x + i) (get_or cells.now i 0)) }
{
    for (i, &v) in cells.iter().enumerate() {
        if !name_ok(t, z, x + i, v) {
            return false;
        }
    }
    true
}

// The same, at 8 cells: most name no state, which one comparison of all tells. A second caller would keep it from being inlined.
fn part_ok(t: &[u16], z: Shape, cells: &[u16], x: usize) -> bool
    requires { (Whole t.now z) × (x + length cells.now < 2 ^ 64) }
    ensures { result ≡ all_below (length cells.now) (λ i. names_ok t.now (x + i) (get_or cells.now i 0)) }
{
    none_named(cells, z.states as u16) || names_ok(t, z, cells, x)
}

// The same of row q, eight cells at a time.
#[tactic(auto, using(cell_checks::proofs::RowLaws::row_bounds, cell_checks::proofs::RowLaws::row_long), unfolding(sets::specs::Tests::all_below))]
fn row_names_ok(t: &[u16], z: Shape, q: usize) -> bool
    requires { (Whole t.now z) × (q < states t.now) }
    ensures { result ≡ row_names_ok t.now q }
{
    let from = z.cells + q * z.width;
    let row = &t[from..from + z.width];
    let mut x: usize = 0;
    while x + 8 <= row.len() {
        if !part_ok(t, z, &row[x..x + 8], x) {
            return false;
        }
        x += 8;
    }
    names_ok(t, z, &row[x..], x)
}

// The same of all rows. With a way out at the first wrong row the parser's loop, compiled into one function with this, took 3 % more time.
#[tactic(auto, using(sets::proofs::TestLaws::all_step), unfolding(sets::specs::Tests::all_below))]
fn rows_names_ok(t: &[u16], z: Shape) -> bool
    requires { Whole t.now z }
    ensures { result ≡ all_below (states t.now) (row_names_ok t.now) }
{
    let mut ok = true;
    for q in 0..z.states {
        ok &= row_names_ok(t, z, q);
    }
    ok
}

// Whether 44 does not apply.
#[tactic(auto, unfolding(machine::specs::Checks::entries_ok))]
pub fn entries_ok(t: &[u16], z: Shape) -> bool
    requires { Whole t.now z }
    ensures { result ≡ entries_ok t.now }
{
    let below = entries_below(t, z);
    let first = tables::entered(t, z, 0) == 0;
    let names = rows_names_ok(t, z);
    below & first & names
}
