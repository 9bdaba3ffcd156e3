// The rows of document 01: "An array of 22 i64 by value passes through the sections and is copied out once at the end." Row k stands
// at place k - 1.
ghost use Rattle.std.specs.Prelude.{◌≡◌, ◌++◌, ◌≤◌, drop, length};
ghost use Rattle.rules.specs.Rows.{rows_of};
ghost use Rattle.template.specs.Sections.{SumsFit, with_derivatives, with_financing, with_off_balance, with_on_balance, with_ratio};

use crate::exposure::exposure;
use crate::ratio::ratio;
use crate::signed::signed;
use crate::units::thousandths;
use rules::{Sums, Tier1, limits};

#[tactic(auto, using(crate::proofs::Sections::sections_are))]
pub fn rows_of(s: Sums, tier1: Tier1) -> [i64; limits::ROWS]
    requires { SumsFit s }
    ensures { result ≡ rows_of s tier1.gain tier1.loss }
{
    let empty = [0i64; limits::ROWS];
    let first = on_balance_rows(empty, s);
    let second = derivative_rows(first, s);
    let third = financing_rows(second, s);
    let fourth = off_balance_rows(third, s);
    ratio_rows(fourth, s, tier1)
}

// "in the first 22 places of the lent rows (later places stay)"
pub fn copy_out(from: [i64; limits::ROWS], to: &mut [i64])
    requires { 22 ≤ length to.old }
    ensures { to.new ≡ from ++ drop 22 to.old }
{
    to[..limits::ROWS].copy_from_slice(&from);
}

fn on_balance_rows(mut rows: [i64; limits::ROWS], s: Sums) -> [i64; limits::ROWS]
    requires { SumsFit s }
    ensures { result ≡ with_on_balance rows s }
{
    rows[0] = signed(s.assets, 0);
    rows[1] = signed(0, s.deducted);
    rows[2] = signed(s.assets, s.deducted);
    rows
}

fn derivative_rows(mut rows: [i64; limits::ROWS], s: Sums) -> [i64; limits::ROWS]
    requires { SumsFit s }
    ensures { result ≡ with_derivatives rows s }
{
    let up = s.replacement + s.weighted + s.posted + s.written;
    let down = s.offset + s.exempt + s.covered;
    rows[3] = signed(s.replacement, 0);
    rows[4] = signed(s.weighted, 0);
    rows[5] = signed(s.posted, 0);
    rows[6] = signed(0, s.offset);
    rows[7] = signed(0, s.exempt);
    rows[8] = signed(s.written, 0);
    rows[9] = signed(0, s.covered);
    rows[10] = signed(up, down);
    rows
}

fn financing_rows(mut rows: [i64; limits::ROWS], s: Sums) -> [i64; limits::ROWS]
    requires { SumsFit s }
    ensures { result ≡ with_financing rows s }
{
    let up = s.financed + s.principal + s.agent;
    rows[11] = signed(s.financed, 0);
    rows[12] = signed(0, s.netted);
    rows[13] = signed(s.principal, 0);
    rows[14] = signed(s.agent, 0);
    rows[15] = signed(up, s.netted);
    rows
}

fn off_balance_rows(mut rows: [i64; limits::ROWS], s: Sums) -> [i64; limits::ROWS]
    requires { SumsFit s }
    ensures { result ≡ with_off_balance rows s }
{
    rows[16] = signed(s.committed, 0);
    rows[17] = signed(0, s.unconverted);
    rows[18] = signed(s.committed, s.unconverted);
    rows
}

fn ratio_rows(mut rows: [i64; limits::ROWS], s: Sums, tier1: Tier1) -> [i64; limits::ROWS]
    requires { SumsFit s }
    ensures { result ≡ with_ratio rows s tier1.gain tier1.loss }
{
    let exposed = exposure(s);
    rows[19] = signed(thousandths(tier1.gain), thousandths(tier1.loss));
    rows[20] = signed(exposed, 0);
    rows[21] = ratio(tier1, exposed);
    rows
}
