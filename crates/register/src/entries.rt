// The lent register. What becomes of an entry is decided by value in `drawn_down`; the functions that hold the slice only read and store.
ghost use Rattle.std.specs.Prelude.{◌≡◌, ◌≤◌, ◌++◌, drop, length, replicate};
ghost use Rattle.rules.specs.Numbers as numbers;
ghost use Rattle.rules.specs.Register.{blank, unfit_for};
ghost use Rattle.register.specs.Loading.{loaded_from};
ghost use Rattle.register.specs.Draws.{answer_number, drawn_down, fault_in, drawn_in, entry_after};

use crate::book::entry_from;
use rules::causes::Cause;
use rules::{Draw, Entry};
use words::causes::refuse_if;

// Whether a draw fits an entry, and if not the cause.
#[tactic(auto, unfolding(rules::specs::Register::unfit_for, rules::specs::Faults::cause))]
pub fn unfit(e: Entry, d: Draw) -> Result<(), Cause>
    ensures { numbers.fault_in result ≡ unfit_for e d }
{
    refuse_if(
        (e.entity != d.entity) | (e.rank < d.rank) | (e.days < d.days),
        Cause::ProtectionUnfit,
    )?;
    refuse_if(
        (e.left < d.amount) | (d.room < d.amount),
        Cause::CoverBeyond,
    )
}

// The entry, fallen by the draw's amount; or the cause for which the draw does not fit it.
#[tactic(auto, unfolding(crate::specs::Draws::drawn_down))]
pub fn drawn_down(e: Entry, d: Draw) -> Result<Entry, Cause>
    ensures { (answer_number result ≡ unfit_for e d) × (entry_after e result ≡ drawn_down e d) }
{
    unfit(e, d)?;
    let before = e.left;
    let after = before.saturating_sub(d.amount);
    Ok(Entry { left: after, ..e })
}

// A draw from the first b entries, or the cause for which it does not fit.
#[tactic(auto, unfolding(crate::specs::Draws::fault_in, crate::specs::Draws::drawn_in, rules::specs::Faults::cause))]
pub fn draw(register: &mut [Entry], b: usize, d: Draw) -> Result<(), Cause>
    requires { b ≤ length register.old }
    ensures { (numbers.fault_in result ≡ fault_in b register.old d) × (register.new ≡ drawn_in b register.old d) }
{
    let i = d.protection as usize;
    refuse_if(b <= i, Cause::NoSuchProtection)?;
    register[i] = drawn_down(register[i], d)?;
    Ok(())
}

// The first n entries become all zero, and the others stay.
pub fn clear(register: &mut [Entry], n: usize)
    requires { n ≤ length register.old }
    ensures { register.new ≡ replicate n blank ++ drop n register.old }
{
    register[..n].fill(Entry::default());
}

// The first b entries become the protections of the book, and the others stay.
#[tactic(auto, using(crate::proofs::Loaded::loads_next, crate::proofs::Loaded::all_loaded), unfolding(crate::specs::Loading::loaded_from))]
pub fn load_all(book: &[u32], register: &mut [Entry], b: usize)
    requires { (b ≤ 4096) × (b ≤ length register.old) }
    ensures { register.new ≡ loaded_from book.now b 0 ++ drop b register.old }
{
    for (i, entry) in register[..b].iter_mut().enumerate() {
        *entry = entry_from(book, i);
    }
}
