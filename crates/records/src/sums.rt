// The sums of the template are added: what an item brings is a value of its own.
ghost use Rattle.std.specs.Prelude.{◌≡◌};
ghost use Rattle.records.specs.Sums as sums;

use rules::Sums;

// No `impl Add`, which could stand only where `Sums` is declared, in `rules`, apart from the condition and the sum that it would cite.
pub fn plus(s: Sums, more: Sums) -> Sums
    requires { sums.SumsRoomy s × sums.SumsRoomy more }
    ensures { result ≡ sums.plus s more }
{
    Sums {
        assets: s.assets + more.assets,
        deducted: s.deducted + more.deducted,
        replacement: s.replacement + more.replacement,
        weighted: s.weighted + more.weighted,
        posted: s.posted + more.posted,
        offset: s.offset + more.offset,
        exempt: s.exempt + more.exempt,
        written: s.written + more.written,
        covered: s.covered + more.covered,
        financed: s.financed + more.financed,
        netted: s.netted + more.netted,
        principal: s.principal + more.principal,
        agent: s.agent + more.agent,
        committed: s.committed + more.committed,
        unconverted: s.unconverted + more.unconverted,
    }
}
