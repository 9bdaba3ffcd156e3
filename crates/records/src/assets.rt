// Kind 2, an asset.
ghost use Rattle.std.specs.Prelude.{◌≡◌, ◌*◌, ◌^◌, ◌≤◌, ◌<◌};
ghost use Rattle.std.proofs.Common.{rules};
ghost use Rattle.rules.specs.declared.kinds.Kind.TheVariants.{Asset};
ghost use Rattle.rules.specs.Word.{size_of};
ghost use Rattle.rules.specs.Faults.{asset_fault};
ghost use Rattle.rules.specs.Read.{asset_at};
ghost use Rattle.rules.specs.Rows.{asset_rows};
ghost use Rattle.records.specs.Step.{asset_list, asset_sums, asset_words, good_asset};
ghost use Rattle.records.specs.Good.{asset_is};

use crate::record::{Good, Record};
use rules::causes::Cause;
use rules::kinds::Kind;
use rules::{Sums, amounts, payloads};
use words::amount::{faulty_amount, plain_amount, size};
use words::causes::refuse_if;
use words::numbers::chosen;
use words::parts::{bit, is_head, payload};

// The words of an asset.
#[derive(Clone, Copy)]
pub struct AssetWords {
    pub head: u32,
    pub carrying: u32,
    pub provision: u32,
    pub deducted: u32,
}

impl Record for AssetWords {
    const AMOUNTS: usize = amounts::ASSET;

    ghost AMOUNTS = { 3 };

    ghost words_at = { asset_words };

    ghost fault = { λ a. asset_fault a.head a.carrying a.provision a.deducted };

    fn read(part: &[u32], at: usize) -> Self {
        AssetWords {
            head: part[at],
            carrying: part[at + 1],
            provision: part[at + 2],
            deducted: part[at + 3],
        }
    }

    // "p + d at most c"
    #[tactic(auto, unfolding(rules::specs::Faults::cause, rules::specs::Faults::asset_fault))]
    fn check(self) -> Result<(), Cause> {
        refuse_if(
            payload(self.head) >= payloads::ASSET_END,
            Cause::PayloadFaulty,
        )?;
        refuse_if(
            faulty_amount(self.carrying)
                | faulty_amount(self.provision)
                | faulty_amount(self.deducted),
            Cause::AmountFaulty,
        )?;
        refuse_if(
            size(self.carrying) < size(self.provision) + size(self.deducted),
            Cause::AmountsAtOdds,
        )
    }

    ghost some_amounts = { Prim.search rules };

    ghost few_amounts = { Prim.search rules };
}

impl Good for AssetWords {
    const KIND: Kind = Kind::Asset;

    type Table = ();

    ghost KIND = { Asset };

    ghost good = { good_asset };

    // In as few tests as there are words.
    #[tactic(auto, unfolding(crate::specs::Step::good_asset))]
    fn is_good(self, _table: &()) -> bool {
        let amounts = plain_amount(self.carrying)
            & plain_amount(self.provision)
            & plain_amount(self.deducted);
        let within = size(self.provision) + size(self.deducted) <= size(self.carrying);
        is_head(self.head, Kind::Asset, 1) & amounts & within
    }

    ghost good_is = { asset_is };
}

// "1: c − p of assets not fiduciary", and d of fiduciary ones (request A.9): the mark chooses between two values, so that no branch hangs
// on it.
#[tactic(auto, unfolding(rules::specs::Rows::asset_rows, rules::specs::Read::asset_at))]
pub fn carried_by(a: AssetWords) -> u64
    requires { size_of a.provision ≤ size_of a.carrying }
    ensures { result ≡ (asset_rows (asset_at (asset_list a))).carried }
{
    let deducted = u64::from(size(a.deducted));
    let net_of_provision = u64::from(size(a.carrying) - size(a.provision));
    let fiduciary = bit(a.head, payloads::ASSET_FIDUCIARY);
    chosen(fiduciary, deducted, net_of_provision)
}

// "2: −d", of fiduciary assets too: the deduction goes first.
#[tactic(auto, unfolding(rules::specs::Rows::asset_rows, rules::specs::Read::asset_at))]
pub fn deducted_by(a: AssetWords) -> u64
    ensures { result ≡ (asset_rows (asset_at (asset_list a))).deducted }
{
    u64::from(size(a.deducted))
}

pub fn asset_sums(carried: u64, deducted: u64) -> Sums
    requires { (1000 * carried < 2 ^ 64) × (1000 * deducted < 2 ^ 64) }
    ensures { result ≡ asset_sums carried deducted }
{
    Sums {
        assets: 1000 * carried,
        deducted: 1000 * deducted,
        ..Sums::default()
    }
}
