// Sets of numbers in N words by value: number i is in the set where bit i % 64 of word i / 64 is 1.

ghost use Rattle.std.specs.Prelude.{◌*◌, ◌<◌, ◌^◌};
ghost use Rattle.sets.specs.Words.{Empty, Put, Without, Union, Next};

// No number.
pub fn empty<const N: usize>() -> [u64; N]
    ensures { Empty N result }
{
    [0; N]
}

// s and the number i.
pub fn with<const N: usize>(s: [u64; N], i: usize) -> [u64; N]
    requires { i < 64 * N }
    ensures { Put s.entry i result }
{
    let mut t = s;
    t[i / 64] |= 1 << (i % 64);
    t
}

// s but the number i.
pub fn without<const N: usize>(s: [u64; N], i: usize) -> [u64; N]
    requires { i < 64 * N }
    ensures { Without s.entry i result }
{
    let mut t = s;
    t[i / 64] &= !(1 << (i % 64));
    t
}

// What is in a or in b.
pub fn join<const N: usize>(a: [u64; N], b: [u64; N]) -> [u64; N]
    ensures { Union a.entry b.entry result }
{
    let mut t = a;
    for i in 0..N {
        t[i] |= b[i];
    }
    t
}

// The first number from one on that is in s.
pub fn next<const N: usize>(s: [u64; N], from: usize) -> Option<usize>
    requires { 64 * N < 2 ^ 64 }
    ensures { Next s.entry from result }
{
    let k = from / 64;
    if k >= N {
        return None;
    }
    let w = s[k] >> (from % 64);
    if w != 0 {
        return Some(from + w.trailing_zeros() as usize);
    }
    for j in k + 1..N {
        let v = s[j];
        if v != 0 {
            return Some(j * 64 + v.trailing_zeros() as usize);
        }
    }
    None
}
