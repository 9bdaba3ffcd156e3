// Runs of assets and of off-balance items: loops of their own, which carry two sums; the others stay as they are. Each is a `while`, since a run ends
// at a word and not after a count, and the place behind it is asked for.
ghost use Rattle.std.specs.Prelude.{◌≡◌, true};
ghost use Rattle.rules.specs.Read.{stands};
ghost use Rattle.reading.specs.Steps.{SumsUpTo};
ghost use Rattle.reading.specs.Ahead.{AnswersItem};

use crate::items::ItemAnswer;
use figures::conversion::ConversionTable;
use records::assets::{AssetWords, asset_sums, carried_by, deducted_by};
use records::commitments::{OffBalanceWords, off_balance_sums, unconverted_by};
use records::presence::standing;
use records::record::{Record, at_place, check_at, good_at};
use records::sums::plus;
use rules::causes::Refusal;
use rules::kinds::Kind;
use rules::{Sums, amounts, lengths};
use words::amount::size;

// From an asset up to the first word that begins none, or to one with a fault.
pub fn assets(book: &[u32], from: usize, s: Sums) -> Result<ItemAnswer, Refusal>
    requires { SumsUpTo book.now s from × (stands 2 book.now from ≡ true) }
    ensures { AnswersItem book.now s from result }
{
    let end = book.len().saturating_sub(amounts::ASSET);
    let mut carried = 0u64;
    let mut deducted = 0u64;
    let mut at = from;
    while good_at::<AssetWords>(book, at, end, &()) {
        let a = AssetWords::read(book, at);
        carried = carried + carried_by(a);
        deducted = deducted + deducted_by(a);
        at += lengths::ASSET;
    }
    if standing(book, at, Kind::Asset) {
        at_place(check_at::<AssetWords>(&book[at..], 0), at)?;
    }
    let with_assets = plus(s, asset_sums(carried, deducted));
    Ok(ItemAnswer::More(with_assets, at))
}

// The same of off-balance items.
pub fn off_balance_items(book: &[u32], from: usize, s: Sums) -> Result<ItemAnswer, Refusal>
    requires { SumsUpTo book.now s from × (stands 10 book.now from ≡ true) }
    ensures { AnswersItem book.now s from result }
{
    let end = book.len().saturating_sub(amounts::OFF_BALANCE);
    let figures = ConversionTable::new();
    let mut notionals = 0u64;
    let mut unconverted = 0u64;
    let mut at = from;
    while good_at::<OffBalanceWords>(book, at, end, &figures) {
        let o = OffBalanceWords::read(book, at);
        notionals = notionals + u64::from(size(o.notional));
        unconverted = unconverted + unconverted_by(o, &figures);
        at += lengths::OFF_BALANCE;
    }
    if standing(book, at, Kind::OffBalance) {
        at_place(check_at::<OffBalanceWords>(&book[at..], 0), at)?;
    }
    let with_commitments = plus(s, off_balance_sums(notionals, unconverted));
    Ok(ItemAnswer::More(with_commitments, at))
}
