// Two cards are checked, and merged into one.
#![tactic(auto)]

ghost use Rattle.std.specs.Prelude.{◌≡◌, []};
ghost use Rattle.sets.specs.Lists.{covered};
ghost use Rattle.card_checks.specs.Checked.{refusal_numbers};
ghost use Rattle.merge.specs.Answer.{about as about_card, answer_numbers, Passes, Answers, Merges};

// Why two cards are not merged.
#[derive(Clone, Copy)]
pub enum Refusal {
    // 4 to 10 of the first card, and of the second.
    First(card_checks::Refusal),
    Second(card_checks::Refusal),
    // 53
    TerminalsDiffer,
    // 5 of the merged card.
    TooLarge,
    // 54
    AreaShort,
}

// The number and value of a refusal of the card k, with k between them.
fn about(k: u16, e: card_checks::Refusal) -> [u16; 3]
    ensures { result ≡ covered 3 (about_card k (refusal_numbers e)) [] }
{
    let n = card_checks::numbers(e);
    [n[0], k, n[1]]
}

// The number, the card meant (1 first, 2 second, 3 merged) and the value of an answer; 0 where there is none.
#[tactic(auto, unfolding(sets::specs::Lists::covered))]
pub fn numbers(answer: Result<u16, Refusal>) -> [u16; 3]
    ensures { result ≡ covered 3 (answer_numbers answer) [] }
{
    let refusal = match answer {
        Ok(n) => return [0, 0, n],
        Err(refusal) => refusal,
    };
    match refusal {
        Refusal::First(e) => about(1, e),
        Refusal::Second(e) => about(2, e),
        Refusal::TerminalsDiffer => [53, 0, 0],
        Refusal::TooLarge => about(3, card_checks::Refusal::SizesWrong),
        Refusal::AreaShort => [54, 0, 0],
    }
}

// The answer to cards that both pass 4 to 10: the merged card's length.
fn judge_passed(a: &[u16], b: &[u16], room: usize) -> Result<u16, Refusal>
    requires { Passes a.now × Passes b.now }
    ensures { Answers a.now b.now room result }
{
    if card::terminals(a) != card::terminals(b) {
        return Err(Refusal::TerminalsDiffer);
    }
    if !merged_card::sizes_ok(a, b) {
        return Err(Refusal::TooLarge);
    }
    let n = a.len() + b.len() + 2;
    if n > room {
        return Err(Refusal::AreaShort);
    }
    Ok(n as u16)
}

// The answer to any two cards, with an output area of `room` numbers.
fn judge(a: &[u16], b: &[u16], room: usize) -> Result<u16, Refusal>
    ensures { Answers a.now b.now room result }
{
    card_checks::check(a).map_err(Refusal::First)?;
    card_checks::check(b).map_err(Refusal::Second)?;
    judge_passed(a, b, room)
}

// Merges two cards into the area `out`: the merged card is at its front then; gives its length.
pub fn merge(a: &[u16], b: &[u16], out: &mut [u16]) -> Result<u16, Refusal>
    ensures { Merges a.now b.now out.old result out.new }
{
    let n = judge(a, b, out.len())?;
    merged_card::write(a, b, out);
    Ok(n)
}
