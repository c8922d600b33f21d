// The areas that the maker is lent: their lengths, and where its rows stand.
#![tactic(auto)]

ghost use Rattle.std.specs.Prelude.{◌≡◌, ◌≤◌};
ghost use Rattle.areas.specs.Areas.{table_size, row_of};

// Numbers of 16 bits: the table.
pub const TABLE: usize = 32260;
// Numbers of 64 bits and of 32 bits: the work areas.
pub const WORDS: usize = 8192;

pub const HALVES: usize = 16384;

// Where the maker's working row of state q begins in the table area.
pub fn row(c: &[u16], q: usize) -> usize
    requires { row_of c.now q ≤ table_size }
    ensures { result ≡ row_of c.now q }
{
    let width = usize::from(card::terminals(c)) + usize::from(card::nonterminals(c));
    tables::header_size(usize::from(card::productions(c))) + q * width
}
