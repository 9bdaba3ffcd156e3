// Whether the words of a record are there.
ghost use Rattle.std.specs.Prelude.{◌≡◌, ◌≤◌, ◌<◌};
ghost use Rattle.rules.specs.Numbers.{kind_number};
ghost use Rattle.rules.specs.Read.{lacks, stands};
ghost use Rattle.rules.specs.Word.{word};
ghost use Rattle.records.specs.Readable.{Readable};

use rules::kinds::Kind;
use words::parts::is_kind;

// Of the n words after a place one is missing or no amount. The kinds are looked at together, so that one branch serves all.
pub fn lacking(ws: &[u32], at: usize, n: usize) -> bool
    requires { Readable at ws.now × ((0 < n) × (n ≤ 16)) }
    ensures { result ≡ lacks n ws.now at }
{
    if ws.len() <= at + n {
        return true;
    }
    ws[at + 1..at + n + 1]
        .iter()
        .copied()
        .fold(false, |other, w| other | !is_kind(w, Kind::Amount))
}

// A record of a kind stands at a place.
pub fn standing(ws: &[u32], at: usize, k: Kind) -> bool
    ensures { result ≡ stands (kind_number k) ws.now at }
{
    ws.get(at).is_some_and(|w| is_kind(*w, k))
}

// The word at a place; 0 beyond the end, so that whoever reads has no index to prove.
pub fn word_at(ws: &[u32], at: usize) -> u32
    ensures { result ≡ word ws.now at }
{
    ws.get(at).copied().unwrap_or(0)
}
