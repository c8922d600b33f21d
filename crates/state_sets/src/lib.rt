// Sets of states: sets of numbers in four words (`sets::words`).
#![tactic(auto)]

ghost use Rattle.std.specs.Prelude.{◌≡◌, false, not, ◌&&◌, ◌||◌, ℕ, ◌+◌, ◌*◌, ◌<◌, eqb};
ghost use Rattle.items.specs.Item.{item};
ghost use Rattle.state_sets.specs.Words.{Lowest};

use sets::words;

// No state.
pub fn empty() -> [u64; 4]
    ensures { (k : ℕ) → item result k ≡ false }
{
    words::empty()
}

// s and the state q.
pub fn with(s: [u64; 4], q: u32) -> [u64; 4]
    requires { q < 256 }
    ensures { (k : ℕ) → item result k ≡ (item s k || eqb q k) }
{
    words::with(s, q as usize)
}

// The lowest state of s, or 256 where there is none.
pub fn lowest(s: [u64; 4]) -> u32
    ensures { Lowest s result }
{
    match words::next(s, 0) {
        Some(p) => p as u32,
        None => 256,
    }
}

// s but the state q.
pub fn without(s: [u64; 4], q: u32) -> [u64; 4]
    requires { q < 256 }
    ensures { (k : ℕ) → item result k ≡ (item s k && not (eqb q k)) }
{
    words::without(s, q as usize)
}
