// The text of a table, of a refusal, and `not a card`.
#![tactic(auto)]

ghost use Rattle.std.specs.Prelude.{◌≡◌, ◌-◌, ◌<◌, get_or};
ghost use Rattle.decimal.specs.Page.{page_of, page, Used};
ghost use Rattle.decimal.specs.Writing.{Wrote};
ghost use Rattle.tables.specs.Layout.{states, width};
ghost use Rattle.listing.specs.Listing.{spaced, line_of, row_of, table_text, refusal_text, not_a_card};
ghost use Rattle.listing.specs.Parts.{part, arrays_of, rows_of};

use decimal::Page;

// So many bytes hold the text of every table within the limits.
pub const TEXT: usize = 196658;

// The number at place i, and 0 past the end.
pub fn at(s: &[u16], i: usize) -> usize
    ensures { (result ≡ get_or s.now i 0) × (result < 65536) }
{
    s.get(i).map_or(0, |&x| usize::from(x))
}

// How many cells a row has.
pub fn row_width(t: &[u16]) -> usize
    ensures { (result ≡ width t.now) × (result < 131072) }
{
    at(t, tables::TERMINALS) + at(t, tables::NONTERMINALS)
}

// The numbers from one place up to another, each behind a blank.
fn numbers(page: &mut Page, s: &[u16], from: usize, end: usize)
    ensures { Wrote page.old (spaced (part s.now from (end - from))) page.new }
{
    for i in from..end {
        page.put(b' ');
        page.number(at(s, i));
    }
}

// A line: a word, and such numbers.
fn line(page: &mut Page, name: &[u8], s: &[u16], from: usize, end: usize)
    ensures { Wrote page.old (line_of name.now (part s.now from (end - from))) page.new }
{
    page.word(name);
    numbers(page, s, from, end);
    page.put(b'\n');
}

// The line of a state.
fn row(page: &mut Page, q: usize, s: &[u16], from: usize, end: usize)
    ensures { Wrote page.old (row_of q (part s.now from (end - from))) page.new }
{
    page.word(b"row ");
    page.number(q);
    page.word(b" :");
    numbers(page, s, from, end);
    page.put(b'\n');
}

// The lines of the arrays: left sides, lengths, entering symbols.
fn arrays(page: &mut Page, t: &[u16])
    ensures { Wrote page.old (arrays_of t.now) page.new }
{
    let p = at(t, tables::PRODUCTIONS);
    let lefts = tables::left_at(0);
    let lengths = tables::length_at(p, 0);
    let entered = tables::entered_at(p, 0);
    let cells = tables::cells_at(p, at(t, tables::STATES));
    line(page, b"left", t, lefts, lengths);
    line(page, b"length", t, lengths, entered);
    line(page, b"entered", t, entered, cells);
}

// The lines of all states.
fn rows(page: &mut Page, t: &[u16])
    ensures { Wrote page.old (rows_of t.now 0 (states t.now)) page.new }
{
    let count = at(t, tables::STATES);
    let width = row_width(t);
    let mut from = tables::cells_at(at(t, tables::PRODUCTIONS), count);
    for q in 0..count {
        row(page, q, t, from, from + width);
        from += width;
    }
}

// A table's text, from the front of the buffer.
pub fn table(out: &mut [u8], t: &[u16]) -> usize
    ensures result_after { page_of out.new result ≡ page out.old (table_text t.now) }
    ensures used { Used result out.new }
{
    let mut page = Page::new(out);
    line(&mut page, b"table", t, 0, tables::left_at(0));
    arrays(&mut page, t);
    rows(&mut page, t);
    page.used()
}

// A refusal's line: its number and its values.
pub fn refusal(out: &mut [u8], values: &[u16]) -> usize
    ensures result_after { page_of out.new result ≡ page out.old (refusal_text values.now) }
    ensures used { Used result out.new }
{
    let mut page = Page::new(out);
    line(&mut page, b"refused", values, 0, values.len());
    page.used()
}

// The line for an input that is no card.
pub fn not_a_card(out: &mut [u8]) -> usize
    ensures result_after { page_of out.new result ≡ page out.old not_a_card }
    ensures used { Used result out.new }
{
    let mut page = Page::new(out);
    page.word(b"not a card\n");
    page.used()
}
