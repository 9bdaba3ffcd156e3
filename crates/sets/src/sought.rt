// What a search looks for, by the kinds of words alone.
ghost use Rattle.std.specs.Prelude.{◌≡◌};
ghost use Rattle.rules.specs.Word.{kind_of};
ghost use Rattle.sets.specs.Search.{end_of};

use rules::kinds::Kind;
use words::parts::is_kind;

// The head of a set; or the first word behind a set. Behind a financing set two kinds are looked at instead of five, which is faster.
#[derive(Clone, Copy, Debug, PartialEq, Eq)]
pub enum Sought {
    Set,
    EndOfDerivatives,
    EndOfFinancing,
}

// What ends the set with this head.
pub fn end_of(head: u32) -> Sought
    ensures { result ≡ end_of (kind_of head) }
{
    if is_kind(head, Kind::FinancingSet) {
        Sought::EndOfFinancing
    } else {
        Sought::EndOfDerivatives
    }
}
