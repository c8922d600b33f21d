// A sample for a production: a shortest sentence that has a derivation which uses it.
#![tactic(auto)]

ghost use Rattle.std.specs.Prelude.{◌≡◌, Bool, [], ◌≤◌, ◌<◌, length};
ghost use Rattle.sets.specs.Lists.{covered};
ghost use Rattle.grammar.specs.Card.{productions, start_of, form_fault};
ghost use Rattle.sample_words.specs.Words.{Wide, Words, Still, Lower};
ghost use Rattle.sample.specs.Search.{StillFrom, Takes, Finds};
ghost use Rattle.sample.specs.Answer.{answer_numbers, Asked, Samples};
ghost use Rattle.sample.specs.declared.Refusal.TheVariants.{Card};

use sample_words::Table;

// Why there is no sample.
#[derive(Clone, Copy)]
pub enum Refusal {
    // 47
    AreaShort,
    // 4 to 10
    Card(card_checks::Refusal),
    // 48
    NoProduction,
    // 49
    TooLong,
}

impl From<card_checks::Refusal> for Refusal {
    ghost from_gives = { λ e r. r ≡ Card e };

    fn from(e: card_checks::Refusal) -> Refusal {
        Refusal::Card(e)
    }
}

// The paper's number and the value of an answer; 0 where there is none.
#[tactic(auto, unfolding(sets::specs::Lists::covered))]
pub fn numbers(answer: Result<u16, Refusal>) -> [u16; 2]
    ensures { result ≡ covered 2 (answer_numbers answer) [] }
{
    match answer {
        Ok(n) => [0, n],
        Err(Refusal::AreaShort) => [47, 0],
        Err(Refusal::Card(e)) => card_checks::numbers(e),
        Err(Refusal::NoProduction) => [48, 0],
        Err(Refusal::TooLong) => [49, 0],
    }
}

// Lessens what is known of the left side of production r, whose symbols begin at s, with and without production m. Whether it was.
fn lessen(c: &[u16], m: u16, table: &mut Table, r: u16, s: u32) -> bool
    requires { (form_fault c.now ≡ 0) × (r < productions c.now) × (s ≡ start_of c.now r) × Words c.now m table.old.lengths table.old.words }
    ensures { Words c.now m table.new.lengths table.new.words × Lower table.old.lengths table.new.lengths (λ l. (u : Bool) → Still c.now m l u r) result }
{
    let used = sample_words::lessen(c, m, table, r, s, true);
    let plain = sample_words::lessen(c, m, table, r, s, false);
    used | plain
}

// A round over all productions, from the last to the first. Whether something was lessened.
fn round(c: &[u16], m: u16, table: &mut Table) -> bool
    requires { (form_fault c.now ≡ 0) × Words c.now m table.old.lengths table.old.words }
    ensures { Words c.now m table.new.lengths table.new.words × Lower table.old.lengths table.new.lengths (StillFrom c.now m 0) result }
{
    let mut lessened = false;
    let mut s = nonterminals::end(c);
    for r in (0..card::productions(c)).rev() {
        s = nonterminals::start_before(c, r, s);
        lessened |= lessen(c, m, table, r, s);
    }
    lessened
}

// Rounds until nothing is lessened.
fn settle(c: &[u16], m: u16, table: &mut Table)
    requires { (form_fault c.now ≡ 0) × Words c.now m table.old.lengths table.old.words }
    ensures { Words c.now m table.new.lengths table.new.words × StillFrom c.now m 0 table.new.lengths }
{
    while round(c, m, table) {}
}

// Writes the word at the start's place, with the production used, to the area, if there is one; gives its length.
fn take(table: &Table, area: &mut [u8]) -> Option<u16>
    requires { Wide table.now.words × (255 ≤ length area.old) }
    ensures { Takes table.now.lengths table.now.words area.old result area.new }
{
    let n = table.lengths[60];
    if 255 < n {
        return None;
    }
    area[..255].copy_from_slice(&table.words[60]);
    Some(n)
}

// Writes a sample for production m to the area and gives its length, if there is one of up to 255 terminals.
fn find(c: &[u16], m: u16, area: &mut [u8]) -> Option<u16>
    requires { (form_fault c.now ≡ 0) × (m < productions c.now) × (255 ≤ length area.old) }
    ensures { Finds c.now m area.old result area.new }
{
    let mut table = Table {
        lengths: [256; 120],
        words: [[0; 255]; 120],
    };
    settle(c, m, &mut table);
    take(&table, area)
}

// The answer where no refusal before 49 applies.
fn sample_asked(c: &[u16], r: u16, area: &mut [u8]) -> Result<u16, Refusal>
    requires { Asked c.now r (length area.old) }
    ensures { Samples c.now r area.old result area.new }
{
    find(c, r, area).ok_or(Refusal::TooLong)
}

// The sample for production r of a card: writes it to the front of the area and gives its length.
pub fn sample(c: &[u16], r: u64, area: &mut [u8]) -> Result<u16, Refusal>
    ensures { Samples c.now r area.old result area.new }
{
    if area.len() < 255 {
        return Err(Refusal::AreaShort);
    }
    card_checks::check(c)?;
    if u64::from(card::productions(c)) <= r {
        return Err(Refusal::NoProduction);
    }
    sample_asked(c, r as u16, area)
}
