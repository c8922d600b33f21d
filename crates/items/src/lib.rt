// Item sets: sets of numbers in 11 words (`sets::words`), number i for item i.
#![tactic(auto)]

ghost use Rattle.std.specs.Prelude.{◌≡◌, ◌+◌, ◌≤◌, ◌<◌, length, take, drop};
ghost use Rattle.std.proofs.Math.Seq.{paste};
ghost use Rattle.items.specs.Item.{set_size, item_limit, Put, Empty, Next, Union, Same, Shifted};

use sets::words;

// The words of an item set, and what the numbers of items are below.
pub const SIZE: usize = 11;

pub const LIMIT: usize = 64 * SIZE;

// No item.
pub fn empty() -> [u64; 11]
    ensures { Empty result }
{
    words::empty()
}

// s and item i.
pub fn with(s: [u64; 11], i: usize) -> [u64; 11]
    requires { i < item_limit }
    ensures { Put s i result }
{
    words::with(s, i)
}

// What is in a or in b.
pub fn join(a: [u64; 11], b: [u64; 11]) -> [u64; 11]
    ensures { Union a b result }
{
    words::join(a, b)
}

// The set that stands at a place. Here and in `store` and `is_at` a loop: with `copy_from_slice` and `==` the words go
// through memory once more, and the maker takes up to a third more time.
pub fn load(d: &[u64], at: usize) -> [u64; 11]
    requires { at + set_size ≤ length d.now }
    ensures { result ≡ take set_size (drop at d.now) }
{
    let mut t = [0u64; 11];
    for i in 0..SIZE {
        t[i] = d[at + i];
    }
    t
}

// A set put at a place.
pub fn store(d: &mut [u64], at: usize, s: [u64; 11])
    requires { at + set_size ≤ length d.old }
    ensures { d.new ≡ paste d.old at s set_size }
{
    let part = &mut d[at..at + SIZE];
    for i in 0..SIZE {
        part[i] = s[i];
    }
}

// Whether s is the set that stands at a place.
pub fn is_at(s: [u64; 11], d: &[u64], at: usize) -> bool
    requires { at + set_size ≤ length d.now }
    ensures { Same (take set_size (drop at d.now)) s result }
{
    for i in 0..SIZE {
        if d[at + i] != s[i] {
            return false;
        }
    }
    true
}

// The numbers after those that are in s and in m.
pub fn advance(s: [u64; 11], m: [u64; 11]) -> [u64; 11]
    ensures { Shifted s m result }
{
    let mut t = [0u64; 11];
    let mut carry: u64 = 0;
    for i in 0..SIZE {
        let v = s[i] & m[i];
        t[i] = (v << 1) | carry;
        carry = v >> 63;
    }
    t
}

// The first item from a number on that is in s, or the limit where there is none.
pub fn next(s: [u64; 11], from: usize) -> usize
    requires { from ≤ item_limit }
    ensures { Next s from result }
{
    words::next(s, from).unwrap_or(LIMIT)
}
