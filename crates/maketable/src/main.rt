// Reads a card from standard input and prints its table, the line of its refusal, or `not a card`.
#![tactic(auto)]

ghost use Rattle.std.specs.Prelude.{List, ℕ};
ghost use Rattle.card_input.specs.Reading.{Came};
ghost use Rattle.response.specs.Printed.{Answers};

use card_input::Input;
use response::Form;

// The one place that writes to standard output: the whole text for what was read. Whatever bytes
// came, the text is theirs.
fn print(rt: &HostRuntime, card: &[u16; card_input::CARD], input: Input, text: &[u8])
    requires { (bs : List ℕ) → Came bs card.now input → Answers Form.Listing bs input text.now }
{
    card_input::print(&mut rt.stdout(), &mut rt.stderr(), b"maketable", text);
}

fn main(rt: HostRuntime) {
    let mut card = [0u16; card_input::CARD];
    let mut out = [0u8; listing::TEXT];
    let input = card_input::read(&mut rt.stdin(), &mut rt.stderr(), b"maketable", &mut card);
    let k = response::answer(&card, input, Form::Listing, &mut out);
    print(&rt, &card, input, &out[..k]);
}
