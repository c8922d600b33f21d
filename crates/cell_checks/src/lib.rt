// The reader's checks of the sizes, the productions and the cells of a table: 22, 23 and 24.
#![tactic(auto)]

ghost use Rattle.std.specs.Prelude.{◌≡◌, ◌<◌, length, get_or, ltb};
ghost use Rattle.sets.specs.Tests.{all_below};
ghost use Rattle.tables.specs.Layout.{states, productions, length_at};
ghost use Rattle.tables.specs.Shape.{Shaped};
ghost use Rattle.machine.specs.Checks.{sizes_ok, production_ok, productions_ok, row_ok, cells_ok};
ghost use Rattle.cell_checks.specs.Rows.{end_test, action_test, Whole};

use tables::Shape;

pub fn sizes_ok(t: &[u16], z: Shape) -> bool
    requires { Shaped t.now z }
    ensures { result ≡ sizes_ok t.now }
{
    let q = (1..=256).contains(&z.states);
    let m = (1..=64).contains(&z.terminals);
    let n = (1..=60).contains(&(z.width - z.terminals));
    let p = (1..=128).contains(&z.productions);
    q & m & n & p
}

#[tactic(auto, unfolding(machine::specs::Checks::production_ok))]
fn production_ok(t: &[u16], z: Shape, r: usize) -> bool
    requires { (Shaped t.now z) × (length_at (productions t.now) r < length t.now) }
    ensures { result ≡ production_ok t.now r }
{
    let left = tables::left(t, r) as usize;
    let n = tables::length_of(t, z, r);
    (z.terminals <= left) & (left < z.width) & (n <= 512)
}

#[tactic(auto, using(sets::proofs::TestLaws::all_step), unfolding(sets::specs::Tests::all_below, machine::specs::Checks::productions_ok))]
pub fn productions_ok(t: &[u16], z: Shape) -> bool
    requires { Whole t.now z }
    ensures { result ≡ productions_ok t.now }
{
    let mut ok = true;
    for r in 0..z.productions {
        ok &= production_ok(t, z, r);
    }
    ok
}

// A state, or a reduction: a number from 1024 to below e.
#[tactic(auto, unfolding(crate::specs::Rows::action_test))]
fn action_ok(v: u16, q: u16, e: u16) -> bool
    ensures { result ≡ action_test q e v }
{
    (v < q) | (1024 <= v) & (v < e)
}

// 0, accept or a reduction.
#[tactic(auto, unfolding(crate::specs::Rows::end_test))]
fn end_ok(v: u16, e: u16) -> bool
    ensures { result ≡ end_test e v }
{
    (v == 0) | (v == 4096) | (1024 <= v) & (v < e)
}

// Whether each of these cells is such as a terminal other than the end marker has.
#[tactic(auto, using(sets::proofs::TestLaws::all_step), unfolding(sets::specs::Tests::all_below))]
fn actions_ok(cells: &[u16], q: u16, e: u16) -> bool
    ensures { result ≡ all_below (length cells.now) (λ i. action_test q e (get_or cells.now i 0)) }
{
    let mut ok = true;
    for &v in cells {
        ok &= action_ok(v, q, e);
    }
    ok
}

// Whether each of these cells is a state below q.
#[tactic(auto, using(sets::proofs::TestLaws::all_step), unfolding(sets::specs::Tests::all_below))]
fn states_ok(cells: &[u16], q: u16) -> bool
    ensures { result ≡ all_below (length cells.now) (λ i. ltb (get_or cells.now i 0) q) }
{
    let mut ok = true;
    for &v in cells {
        ok &= v < q;
    }
    ok
}

#[tactic(auto, using(crate::proofs::RowLaws::row_bounds))]
fn row_ok(t: &[u16], z: Shape, q: usize) -> bool
    requires { (Whole t.now z) × (q < states t.now) }
    ensures { result ≡ row_ok t.now q }
{
    let from = z.cells + q * z.width;
    let row = &t[from..from + z.width];
    let n = z.states as u16;
    let e = 1024 + z.productions as u16;
    let first = end_ok(row[0], e);
    let actions = actions_ok(&row[1..z.terminals], n, e);
    let gotos = states_ok(&row[z.terminals..], n);
    first & actions & gotos
}

#[tactic(auto, using(sets::proofs::TestLaws::all_step), unfolding(sets::specs::Tests::all_below, machine::specs::Checks::cells_ok))]
pub fn cells_ok(t: &[u16], z: Shape) -> bool
    requires { Whole t.now z }
    ensures { result ≡ cells_ok t.now }
{
    let mut ok = true;
    for q in 0..z.states {
        ok &= row_ok(t, z, q);
    }
    ok
}
