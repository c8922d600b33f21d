// The checks of a card, 4 to 10, in the paper's order.
#![tactic(auto)]

ghost use Rattle.std.specs.Prelude.{◌≡◌, Err, [], ◌∷◌};
ghost use Rattle.sets.specs.Lists.{covered};
ghost use Rattle.card.specs.Fault.{fault_number};
ghost use Rattle.card_checks.specs.Checked.{refusal_numbers, verdict_numbers, Checked};

use card::Fault;

#[derive(Clone, Copy)]
pub enum Refusal {
    CardShort,
    SizesWrong,
    LengthWrong,
    LeftWrong,
    SumWrong,
    SymbolWrong,
    // With the lowest such nonterminal.
    Useless(u16),
}

// The paper's number and value of a refusal; 0 where there is no value.
#[tactic(auto, unfolding(sets::specs::Lists::covered))]
pub fn numbers(e: Refusal) -> [u16; 2]
    ensures { result ≡ covered 2 (refusal_numbers e) [] }
{
    match e {
        Refusal::CardShort => [4, 0],
        Refusal::SizesWrong => [5, 0],
        Refusal::LengthWrong => [6, 0],
        Refusal::LeftWrong => [7, 0],
        Refusal::SumWrong => [8, 0],
        Refusal::SymbolWrong => [9, 0],
        Refusal::Useless(x) => [10, x],
    }
}

impl From<Fault> for Refusal {
    ghost from_gives = { λ f e. refusal_numbers e ≡ fault_number (Err f) ∷ [] };

    fn from(f: Fault) -> Refusal {
        match f {
            Fault::Short => Refusal::CardShort,
            Fault::Sizes => Refusal::SizesWrong,
            Fault::Length => Refusal::LengthWrong,
            Fault::Left => Refusal::LeftWrong,
            Fault::Sum => Refusal::SumWrong,
            Fault::Symbol => Refusal::SymbolWrong,
        }
    }
}

// What 4 to 10 say of a card.
pub fn check(c: &[u16]) -> Result<(), Refusal>
    ensures { Checked c.now (verdict_numbers result) }
{
    card::form_fault(c)?;
    match nonterminals::useless(c) {
        Some(x) => Err(Refusal::Useless(x)),
        None => Ok(()),
    }
}
