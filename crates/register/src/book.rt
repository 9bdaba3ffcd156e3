// The protections of the book.
ghost use Rattle.std.specs.Prelude.{◌≡◌, ◌≤◌};
ghost use Rattle.rules.specs.Read.{protection_at};
ghost use Rattle.rules.specs.Register.{entry_of};
ghost use Rattle.register.specs.Loading.{protection_place};

use records::protections::ProtectionWords;
use records::record::Record;
use rules::{Entry, lengths, limits, payloads};
use words::amount::size;
use words::parts::field;

// Protection i of the book, of which nothing is drawn yet.
#[tactic(auto, unfolding(rules::specs::Read::protection_at))]
pub fn entry_from(book: &[u32], i: usize) -> Entry
    requires { i ≤ 4096 }
    ensures { result ≡ entry_of (protection_at book.now (protection_place i)) }
{
    let p = ProtectionWords::read(book, limits::FIRST_RECORD + lengths::PROTECTION * i);
    Entry {
        entity: field(p.head, payloads::ENTITY, payloads::ENTITY_BITS),
        rank: field(p.head, payloads::RANK, payloads::RANK_BITS),
        days: size(p.days),
        left: size(p.notional).saturating_sub(size(p.gain)),
    }
}
