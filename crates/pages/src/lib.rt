// A table on pages: 60 lines of 72 columns, each with a line feed behind it.
#![tactic(auto)]

ghost use Rattle.std.specs.Prelude.{◌≡◌, [], ◌∷◌, ◌++◌, ◌+◌, ◌-◌, ◌*◌, ◌^◌, ◌<◌, ◌≤◌, length};
ghost use Rattle.sets.specs.Lists.{each};
ghost use Rattle.tables.specs.Layout.{states, width};
ghost use Rattle.decimal.specs.Digits.{decimal_of};
ghost use Rattle.decimal.specs.Page.{page_of, page, Used};
ghost use Rattle.decimal.specs.Writing.{Wrote};
ghost use Rattle.pages.specs.Pages.{blanks, page_line, aligned, row_lines, cells_on, opening, rows_text, fill_lines, pages_text};
ghost use Rattle.pages.specs.Parts.{cells_from, line_from, row_from};

use decimal::Page;
use listing::{at, row_width};

// So many bytes hold the pages of every table within the limits.
pub const TEXT: usize = 227760;

// How many digits a number has.
fn digits(x: usize) -> usize
    ensures { result ≡ length (decimal_of x) }
{
    let mut n = 1;
    let mut y = x;
    while y >= 10 {
        y /= 10;
        n += 1;
    }
    n
}

// So many blanks.
fn spaces(page: &mut Page, count: usize)
    ensures { Wrote page.old (blanks count) page.new }
{
    for _i in 0..count {
        page.put(b' ');
    }
}

// A number in so many columns, right-aligned.
fn right(page: &mut Page, columns: usize, x: usize)
    ensures { Wrote page.old (aligned columns x) page.new }
{
    let gap = columns.saturating_sub(digits(x));
    spaces(page, gap);
    page.number(x);
}

// The end of a line that has so many columns: blanks up to 72 and a line feed.
fn end_line(page: &mut Page, columns: usize)
    ensures { Wrote page.old (blanks (72 - columns) ++ 10 ∷ []) page.new }
{
    spaces(page, 72usize.saturating_sub(columns));
    page.put(b'\n');
}

// How line i of the row of state q opens: with the state, or blank.
fn open_line(page: &mut Page, q: usize, i: usize)
    ensures { Wrote page.old (opening q i) page.new }
{
    if i == 0 {
        right(page, 4, q);
    } else {
        spaces(page, 4);
    }
}

// How many columns that takes.
fn opened(q: usize, i: usize) -> usize
    ensures { (result ≡ length (opening q i)) × (result ≤ 20) }
{
    if i == 0 { digits(q).max(4) } else { 4 }
}

// So many cells from a place on, each in 6 columns.
fn cells(page: &mut Page, t: &[u16], from: usize, count: usize)
    requires { from + count < 2 ^ 64 }
    ensures after { Wrote page.old (cells_from t.now from count) page.new }
    ensures columns { length (cells_from t.now from count) ≡ 6 * count }
{
    for k in 0..count {
        right(page, 6, at(t, from + k));
    }
}

// Line i of the row of state q, with so many cells from a place on.
fn line(page: &mut Page, t: &[u16], q: usize, i: usize, from: usize, count: usize)
    requires { (from + count < 2 ^ 64) × (count ≤ 11) }
    ensures { Wrote page.old (line_from t.now q i from count) page.new }
{
    let columns = opened(q, i) + 6 * count + 2;
    open_line(page, q, i);
    cells(page, t, from, count);
    spaces(page, 2);
    end_line(page, columns);
}

// How many lines the row of w cells takes.
fn row_lines(w: usize) -> usize
    ensures { result ≡ row_lines w }
{
    w.div_ceil(11)
}

// How many of w cells stand on line i of their row.
fn count_on(w: usize, i: usize) -> usize
    requires { 11 * i ≤ w }
    ensures { result ≡ cells_on w i }
{
    (w - 11 * i).min(11)
}

// The row of state q, whose w cells begin at a place.
fn row(page: &mut Page, t: &[u16], q: usize, from: usize, w: usize)
    requires { from + w < 2 ^ 62 }
    ensures { Wrote page.old (row_from t.now q from w) page.new }
{
    for i in 0..row_lines(w) {
        line(page, t, q, i, from + 11 * i, count_on(w, i));
    }
}

// The rows of all states.
fn rows(page: &mut Page, t: &[u16])
    ensures { Wrote page.old (rows_text t.now) page.new }
{
    let count = at(t, tables::STATES);
    let w = row_width(t);
    let mut from = tables::cells_at(at(t, tables::PRODUCTIONS), count);
    for q in 0..count {
        row(page, t, q, from, w);
        from += w;
    }
}

// So many blank lines.
fn fill(page: &mut Page, count: usize)
    ensures { Wrote page.old (each count (λ i. page_line [])) page.new }
{
    for _i in 0..count {
        end_line(page, 0);
    }
}

// How many blank lines fill the last page of a table.
fn blank_lines(t: &[u16]) -> usize
    ensures { result ≡ fill_lines (states t.now * row_lines (width t.now)) }
{
    let lines = at(t, tables::STATES) * row_lines(row_width(t));
    60 * lines.div_ceil(60) - lines
}

// The pages of a table, from the front of the buffer.
pub fn table(out: &mut [u8], t: &[u16]) -> usize
    ensures result_after { page_of out.new result ≡ page out.old (pages_text t.now) }
    ensures used { Used result out.new }
{
    let mut page = Page::new(out);
    rows(&mut page, t);
    fill(&mut page, blank_lines(t));
    page.used()
}
