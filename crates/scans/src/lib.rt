// The reader's loops over the input and over the second stack area; the steps are not among them.
#![tactic(auto)]

ghost use Rattle.std.specs.Prelude.{◌≡◌, false, ℕ, ◌^◌, ◌<◌, ◌≤◌, length, get_or, take, replicate};
ghost use Rattle.sets.specs.Bit.{bit};
ghost use Rattle.sets.specs.Tests.{all_below};
ghost use Rattle.scans.specs.OpenFront.{OpenFront, outside};

// Whether terminal b is closed. A terminal is less than 64, so that this is one test of a bit.
fn is_closed(closed: u64, b: u8) -> bool
    requires { b < 64 }
    ensures { result ≡ bit closed b }
{
    (closed >> b) & 1 == 1
}

// The first closed terminal, from the beginning, or the input's length.
fn search(input: &[u8], closed: u64) -> usize
    requires { (i : ℕ) → get_or input.now i 0 < 64 }
    ensures { OpenFront closed input.now result }
{
    for (i, &b) in input.iter().enumerate() {
        if is_closed(closed, b) {
            return i;
        }
    }
    input.len()
}

// The lowest closed terminal; 64 where none is closed.
fn lowest_closed(closed: u64) -> u8
    ensures { (m : ℕ) → m < result → bit closed m ≡ false }
{
    sets::lowest(closed) as u8
}

// One more than the highest closed terminal; 0 where none is closed.
fn past_closed(closed: u64) -> u8
    ensures { closed < 2 ^ result }
{
    (64 - u64::leading_zeros(closed)) as u8
}

// Whether each terminal is below lo or at least hi. No test ends the loop, so many terminals are tested at a time.
#[tactic(auto, using(sets::proofs::TestLaws::all_step), unfolding(sets::specs::Tests::all_below))]
fn all_outside(input: &[u8], lo: u8, hi: u8) -> bool
    ensures { result ≡ all_below (length input.now) (outside lo hi input.now) }
{
    let mut ok = true;
    for &b in input {
        ok &= (b < lo) | (hi <= b);
    }
    ok
}

// The place of the first closed terminal, or the input's length. Where no terminal lies between the lowest and the highest
// closed one, that is found without a test of each.
pub fn first_closed(input: &[u8], closed: u64) -> usize
    requires { (i : ℕ) → get_or input.now i 0 < 64 }
    ensures { OpenFront closed input.now result }
{
    if closed == 0 {
        return input.len();
    }
    if all_outside(input, lowest_closed(closed), past_closed(closed)) {
        return input.len();
    }
    search(input, closed)
}

// The first n places of the stack, copied. A loop and not `copy_from_slice`, for which the archive would need `memmove`.
pub fn copy(stack: &[u16], second: &mut [u16], n: usize)
    requires { (n ≤ length stack.now) × (n ≤ length second.old) }
    ensures { take n second.new ≡ take n stack.now }
{
    for i in 0..n {
        second[i] = stack[i];
    }
}

// A loop and not `fill`, which writes the last place apart: with it a call by a small table took 10 % more time.
pub fn clear(second: &mut [u16])
    ensures { second.new ≡ replicate (length second.old) 0 }
{
    for i in 0..second.len() {
        second[i] = 0;
    }
}
