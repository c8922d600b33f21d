// Scans decimal numbers between blanks and line feeds, in chunks of any size, into an area of 772.
ghost use Rattle.std.specs.Prelude.{◌≡◌, ◌≤◌, IfSome};
ghost use Rattle.decimal.specs.Scanning.{fed_of, class_of, entered, fed_in, fed, found_of};

// Between numbers, with so many of them read; inside the number at a place, which stands in the
// area as far as it was read; or past a fault. An input starts at Between(0).
#[derive(Clone, Copy)]
pub enum Scan {
    Between(usize),
    Inside(usize),
    Bad,
}

#[derive(Clone, Copy)]
enum Class {
    Space,
    Digit(u8),
    Other,
}

// A blank or a line feed, a digit with its value, or any other byte.
fn class_of(b: u8) -> Class
    ensures { result ≡ class_of b }
{
    match b {
        b' ' | b'\n' => Class::Space,
        b'0'..=b'9' => Class::Digit(b - b'0'),
        _ => Class::Other,
    }
}

// Puts the value of a number at its place.
fn enter(card: &mut [u16; 772], n: usize, v: u32) -> Scan
    ensures { fed_of card.new result ≡ entered card.old n v }
{
    if n < 772 && v <= 65535 {
        card[n] = v as u16;
        Scan::Inside(n)
    } else {
        Scan::Bad
    }
}

// A byte between numbers.
fn between(card: &mut [u16; 772], n: usize, k: Class) -> Scan
    ensures { fed_of card.new result ≡ fed_in card.old (Scan.Between n) k }
{
    match k {
        Class::Space => Scan::Between(n),
        Class::Digit(d) => enter(card, n, u32::from(d)),
        Class::Other => Scan::Bad,
    }
}

// A byte behind a digit.
fn inside(card: &mut [u16; 772], n: usize, k: Class) -> Scan
    ensures { fed_of card.new result ≡ fed_in card.old (Scan.Inside n) k }
{
    if 772 <= n {
        return Scan::Bad;
    }
    match k {
        Class::Space => Scan::Between(n + 1),
        Class::Digit(d) => {
            let old = u32::from(card[n]);
            enter(card, n, old * 10 + u32::from(d))
        }
        Class::Other => Scan::Bad,
    }
}

// One byte.
fn byte(card: &mut [u16; 772], s: Scan, b: u8) -> Scan
    ensures { fed_of card.new result ≡ fed_in card.old s (class_of b) }
{
    let k = class_of(b);
    match s {
        Scan::Between(n) => between(card, n, k),
        Scan::Inside(n) => inside(card, n, k),
        Scan::Bad => Scan::Bad,
    }
}

// Feeds the bytes of a chunk, one after the other.
pub fn feed(card: &mut [u16; 772], start: Scan, chunk: &[u8]) -> Scan
    ensures { fed_of card.new result ≡ fed (fed_of card.old start) chunk.now }
{
    let mut s = start;
    for &b in chunk {
        s = byte(card, s, b);
    }
    s
}

// How many numbers a whole input has, by where its scan ends; none if it is no card.
pub fn finish(s: Scan) -> Option<usize>
    ensures value { result ≡ found_of s }
    ensures within { IfSome result (λ n. n ≤ 772) }
{
    match s {
        Scan::Between(n) if n <= 772 => Some(n),
        Scan::Inside(n) if n < 772 => Some(n + 1),
        _ => None,
    }
}
