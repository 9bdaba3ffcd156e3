// What a derivative set adds to row 21 under each setting of its marks.
ghost use Rattle.std.specs.Prelude.{◌≡◌, ◌≤◌};
ghost use Rattle.weighing.specs.Gathered.{TallyFits};
ghost use Rattle.weighing.specs.Words.{set_of};
ghost use Rattle.settings.specs.Pieces.{PiecesFit, exposed_by, pieces_of};

use rules::payloads;
use weighing::read::SetWords;
use weighing::tally::Tally;
use weights::addon::weighted;
use words::amount::size;
use words::numbers::chosen;
use words::parts::{bit, field};

// Of what its exposure is made, in thousandths, whatever its marks: replacement and the add-on that is kept in without netting, with netting, and with
// margin taken off besides; cash margin paid; and collateral posted with what covers leave of written notional less loss.
#[derive(Clone, Copy)]
pub struct Pieces {
    pub gross: u64,
    pub netted: u64,
    pub margined: u64,
    pub paid: u64,
    pub fixed: u64,
}

// The pieces of a set of these words whose members come to this tally: weighed once for all settings.
pub fn pieces_of(d: SetWords, t: Tally) -> Pieces
    requires { TallyFits t × (t.covered ≤ t.written) }
    ensures { result ≡ pieces_of (set_of d) t }
{
    let add_on = t.gross - t.uncovered;
    let net = t.gains.saturating_sub(t.losses);
    let share = weighted(add_on, t.gains, t.losses);
    let after_margin = net.saturating_sub(u64::from(size(d.received)));
    Pieces {
        gross: 1000 * t.gains + add_on,
        netted: 1000 * net + share,
        margined: 1000 * after_margin + share,
        paid: 1000 * u64::from(size(d.paid)),
        fixed: 1000 * u64::from(size(d.posted)) + 1000 * (t.written - t.covered),
    }
}

// What they add under marks that stand in the lowest bits of a word.
pub fn exposed(p: Pieces, marks: u32) -> u64
    requires { PiecesFit p }
    ensures { result ≡ exposed_by p marks }
{
    let offsets = field(marks, payloads::MARGIN, payloads::MARGIN_BITS) == payloads::MARGIN_ALL;
    let netted = chosen(offsets, p.margined, p.netted);
    let weighed = chosen(bit(marks, payloads::SET_NETTING), netted, p.gross);
    let counted = chosen(bit(marks, payloads::SET_EXEMPT), 0, weighed);
    p.fixed + counted + chosen(offsets, 0, p.paid)
}
