// The written credit whose covers are being read, and the next of them.
ghost use Rattle.std.specs.Prelude.{◌≡◌, ◌≤◌, ◌^◌};
ghost use Rattle.derivatives.specs.Ahead.{draw_of, plus_cover};

use rules::{Draw, payloads};
use weighing::read::{CoverWords, WrittenWords};
use words::amount::size;
use words::parts::field;

// The written credit whose covers are being read: where its record stands, what its covers so far come to, and what they leave of its
// notional minus loss.
#[derive(Clone, Copy, Debug, PartialEq, Eq)]
pub struct OpenCredit {
    pub place: usize,
    pub covered: u64,
    pub room: u32,
}

impl OpenCredit {
    // A cover of it, as a draw: where it stands in the book, and what the covers before it leave of the credit.
    #[tactic(auto, unfolding(rules::specs::Read::written_at, rules::specs::Read::cover_at))]
    pub fn draw(self, w: WrittenWords, c: CoverWords, at: usize) -> Draw
        ensures { result ≡ draw_of w c at self.room }
    {
        Draw {
            at,
            entity: field(w.head, payloads::ENTITY, payloads::ENTITY_BITS),
            rank: field(w.head, payloads::RANK, payloads::RANK_BITS),
            days: size(w.days),
            room: self.room,
            protection: field(c.head, payloads::COVER_PLACE, payloads::COVER_PLACE_BITS),
            amount: size(c.amount),
        }
    }

    // With one cover more.
    pub fn with_cover(self, amount: u32) -> OpenCredit
        requires { self.covered ≤ 2 ^ 62 }
        ensures { result ≡ plus_cover self amount }
    {
        OpenCredit {
            place: self.place,
            covered: self.covered + u64::from(amount),
            room: self.room.saturating_sub(amount),
        }
    }
}
