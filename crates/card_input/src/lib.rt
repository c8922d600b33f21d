// Standard input as a card, and standard output, for programs that print what is made of a card.
// What fails is told on standard error, behind the program's name.
#![tactic(auto)]

ghost use Rattle.std.specs.Prelude.{◌≡◌, List, ◌++◌, ℕ, IfSome};
ghost use Rattle.decimal.specs.Page.{page_of, page, Used};
ghost use Rattle.card_input.specs.Reading.{Taken, Scanned, Came};

use decimal::{Page, Scan};
use std::io::{self, Cursor, ErrorKind, Read, Write};

// The most numbers that an input may have.
pub const CARD: usize = 772;

// A read failed; standard error has the reason.
#[derive(Clone, Copy)]
pub struct ReadFailed;

// What was read: how many numbers the card has, none where the input is no card, or a failure.
pub type Input = Result<Option<usize>, ReadFailed>;

// A name and a text behind it, as much as there is room for.
fn titled(out: &mut [u8], name: &[u8], text: &[u8]) -> usize
    ensures result_after { page_of out.new result ≡ page out.old (name.now ++ text.now) }
    ensures used { Used result out.new }
{
    let mut page = Page::new(out);
    page.word(name);
    page.word(text);
    page.used()
}

// A failure's reason in the C library's words: std's text without ` (os error N)` behind it.
fn reason(text: &str) -> &str {
    match text.split_once(" (os error ") {
        Some((words, _)) => words,
        None => text,
    }
}

// A line: what failed, and why.
fn tell<E: Write>(errors: &mut E, line: &[u8], error: &io::Error) -> io::Result<()> {
    let mut text = Cursor::new([0u8; 320]);
    write!(text, "{error}")?;
    let n = (text.position() as usize).min(320);
    let bytes = text.into_inner();
    errors.write_all(line)?;
    match str::from_utf8(&bytes[..n]) {
        Ok(words) => writeln!(errors, ": {}", reason(words)),
        Err(_) => writeln!(errors),
    }
}

// A line on standard error: the name and what failed, 64 bytes at most, and the reason. Where it
// cannot be written, nothing is left to tell it by.
fn fail<E: Write>(errors: &mut E, name: &[u8], what: &[u8], error: &io::Error) {
    let mut line = [0u8; 64];
    let n = titled(&mut line, name, what);
    let _ = tell(errors, &line[..n], error);
}

// Reads once, and feeds the scan what came: where it stands then, or none at the end of the input.
// A read that a signal interrupts brings no bytes.
fn read_some<R: Read, E: Write>(
    input: &mut R,
    errors: &mut E,
    name: &[u8],
    card: &mut [u16; CARD],
    s: Scan,
) -> Result<Option<Scan>, ReadFailed>
    ensures { Taken (R.remaining input.old) (R.remaining input.new) card.old s card.new result }
{
    let mut buf = [0u8; 4096];
    match input.read(&mut buf) {
        Ok(0) => Ok(None),
        Ok(n) => Ok(Some(decimal::feed(card, s, &buf[..n]))),
        Err(e) if e.kind() == ErrorKind::Interrupted => Ok(Some(s)),
        Err(e) => {
            fail(errors, name, b": read", &e);
            Err(ReadFailed)
        }
    }
}

// Reads to the end of the input: where the scan stands then. A loop has to end, and nothing says
// that an input does: so it takes at most so many turns that no run uses them up.
fn read_all<R: Read, E: Write>(
    input: &mut R,
    errors: &mut E,
    name: &[u8],
    card: &mut [u16; CARD],
) -> Result<Scan, ReadFailed>
    ensures { Scanned (R.remaining input.old) card.old card.new result }
{
    let mut s = Scan::Between(0);
    for _ in 0..u64::MAX {
        match read_some(input, errors, name, card, s)? {
            Some(t) => s = t,
            None => return Ok(s),
        }
    }
    let _ = errors.write_all(name);
    let _ = errors.write_all(b": read: input without end\n");
    Err(ReadFailed)
}

// Reads the input to its end. The numbers of a card then stand at the front of the area, and zeros behind them.
pub fn read<R: Read, E: Write>(
    input: &mut R,
    errors: &mut E,
    name: &[u8],
    card: &mut [u16; CARD],
) -> Input
    ensures came { (bs : List ℕ) × Came bs card.new result }
    ensures known { IfSome (R.remaining input.old) (λ bs. Came bs card.new result) }
{
    *card = [0; CARD];
    let s = read_all(input, errors, name, card)?;
    Ok(decimal::finish(s))
}

// Writes a whole text to the output.
pub fn print<W: Write, E: Write>(output: &mut W, errors: &mut E, name: &[u8], text: &[u8]) {
    if let Err(e) = output.write_all(text) {
        fail(errors, name, b": write", &e);
    }
}

// What is read of bytes in memory is answered by these bytes.
#[cfg(test)]
fn read_bytes(bytes: &[u8], card: &mut [u16; CARD]) -> Input
    ensures { Came bytes.now card.new result }
{
    let mut input = bytes;
    read(&mut input, &mut io::sink(), b"test", card)
}

#[test]
fn bytes_are_read(rt: HostRuntime) {
    let mut card = [0u16; CARD];
    match read_bytes(b"7 65535\n0", &mut card) {
        Ok(Some(n)) => { assert!(rt; n == 3 && card[0] == 7 && card[1] == 65535 && card[2] == 0) }
        _ => assert!(rt; false),
    }
    assert!(rt; matches!(read_bytes(b"7 65536", &mut card), Ok(None)));
}
