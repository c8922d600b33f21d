// What the reader refuses: the table, the input, the stack areas and the word of closed terminals.
#![tactic(auto)]

ghost use Rattle.std.specs.Prelude.{◌≡◌, List, ℕ};
ghost use Rattle.sets.specs.Tests.{unless, first_refusal};
ghost use Rattle.tables.specs.Layout.{terminals};
ghost use Rattle.machine.specs.Checks.{input_ok, table_refusal, input_refusal, area_refusal, refusal_of, closed_ok, restricted_refusal};
ghost use Rattle.cell_checks.specs.Rows.{Whole};
ghost use Rattle.table_checks.specs.Verdict.{verdict_number};

use cell_checks::{cells_ok, productions_ok, sizes_ok};
use entry_checks::entries_ok;
use tables::Shape;

#[derive(Clone, Copy)]
pub enum Refusal {
    TableShort,
    SizesWrong,
    ProductionWrong,
    CellWrong,
    EntryWrong,
    InputLong,
    TerminalWrong,
    NoStack,
    SecondShort,
    ClosedWrong,
}

// Whether each terminal of the input is at least 1 and below n.
#[tactic(auto, using(sets::proofs::TestLaws::all_step), unfolding(sets::specs::Tests::all_below, machine::specs::Checks::input_ok, machine::specs::Checks::terminal_ok))]
fn input_ok(l: &[u8], n: u8) -> bool
    ensures { (t : List ℕ) → terminals t ≡ n → result ≡ input_ok t l.now }
{
    let mut ok = true;
    for &b in l {
        ok &= (0 < b) & (b < n);
    }
    ok
}

// The first refusal that applies to a table of allowed sizes that is long enough. All are tested before the first is chosen; a good table needs all.
fn check_parts(t: &[u16], z: Shape) -> Result<(), Refusal>
    requires { Whole t.now z }
    ensures { verdict_number result ≡ table_refusal t.now }
{
    let productions = productions_ok(t, z);
    let cells = cells_ok(t, z);
    let entries = entries_ok(t, z);
    if !productions {
        return Err(Refusal::ProductionWrong);
    }
    if !cells {
        return Err(Refusal::CellWrong);
    }
    if !entries {
        return Err(Refusal::EntryWrong);
    }
    Ok(())
}

// The first refusal that applies to a table.
#[tactic(auto, unfolding(machine::specs::Checks::table_refusal))]
fn check_table(t: &[u16]) -> Result<(), Refusal>
    ensures { verdict_number result ≡ table_refusal t.now }
{
    if t.len() < 4 {
        return Err(Refusal::TableShort);
    }
    let z = tables::shape_of(t);
    if !sizes_ok(t, z) {
        return Err(Refusal::SizesWrong);
    }
    if t.len() < tables::size(t, z) {
        return Err(Refusal::TableShort);
    }
    check_parts(t, z)
}

// The first refusal that applies to an input for a table.
#[tactic(auto, using(machine::proofs::Checked::checked), unfolding(machine::specs::Checks::input_refusal))]
fn check_input(t: &[u16], l: &[u8]) -> Result<(), Refusal>
    requires { table_refusal t.now ≡ 0 }
    ensures { verdict_number result ≡ input_refusal t.now l.now }
{
    if 65535 < l.len() {
        return Err(Refusal::InputLong);
    }
    if !input_ok(l, tables::shape_of(t).terminals as u8) {
        return Err(Refusal::TerminalWrong);
    }
    Ok(())
}

// The first refusal that applies to a stack area of n places and a second one of k.
#[tactic(auto, unfolding(machine::specs::Checks::area_refusal))]
fn check_areas(n: usize, k: usize) -> Result<(), Refusal>
    ensures { verdict_number result ≡ area_refusal n k }
{
    if n == 0 {
        return Err(Refusal::NoStack);
    }
    if k < n {
        return Err(Refusal::SecondShort);
    }
    Ok(())
}

// The first refusal that applies to an input for a table and to stack areas of n and k places.
fn check_lent(t: &[u16], l: &[u8], n: usize, k: usize) -> Result<(), Refusal>
    requires { table_refusal t.now ≡ 0 }
    ensures { verdict_number result ≡ first_refusal (input_refusal t.now l.now) (area_refusal n k) }
{
    check_input(t, l)?;
    check_areas(n, k)
}

// The first refusal that applies to a table, an input and stack areas of n and k places.
#[tactic(auto, unfolding(machine::specs::Checks::refusal_of))]
pub fn check(t: &[u16], l: &[u8], n: usize, k: usize) -> Result<(), Refusal>
    ensures { verdict_number result ≡ refusal_of t.now l.now n k }
{
    check_table(t)?;
    check_lent(t, l, n, k)
}

// Whether no closed terminal is 0 or at least n. A word has no bit from 64 on.
#[tactic(auto, using(crate::proofs::ClosedLaws::zero_closed, crate::proofs::ClosedLaws::within_word))]
fn closed_ok(closed: u64, n: usize) -> bool
    ensures { (t : List ℕ) → terminals t ≡ n → result ≡ closed_ok t closed }
{
    if sets::has(closed, 0) {
        return false;
    }
    if n < 64 { closed >> n == 0 } else { true }
}

// Whether 50 applies to a word of closed terminals for a table.
#[tactic(auto, using(machine::proofs::Checked::checked))]
fn check_closed(t: &[u16], closed: u64) -> Result<(), Refusal>
    requires { table_refusal t.now ≡ 0 }
    ensures { verdict_number result ≡ unless (closed_ok t.now closed) 50 0 }
{
    if !closed_ok(closed, tables::shape_of(t).terminals) {
        return Err(Refusal::ClosedWrong);
    }
    Ok(())
}

// The same as `check`, with a word of closed terminals behind all.
#[tactic(auto, using(sets::proofs::TestLaws::neither), unfolding(machine::specs::Checks::restricted_refusal, machine::specs::Checks::refusal_of))]
pub fn check_restricted(t: &[u16], l: &[u8], closed: u64, n: usize, k: usize) -> Result<(), Refusal>
    ensures { verdict_number result ≡ restricted_refusal t.now closed l.now n k }
{
    check(t, l, n, k)?;
    check_closed(t, closed)
}
