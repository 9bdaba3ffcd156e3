// Row 21, "3 + 11 + 16 + 19": the sums that count up less those that count down.
ghost use Rattle.std.specs.Prelude.{◌≡◌, pos};
ghost use Rattle.rules.specs.Rows.{exposure_row};
ghost use Rattle.template.specs.Sections.{SumsFit, counted_down, counted_up};

use rules::Sums;

#[tactic(auto, using(crate::proofs::Sections::exposure_is))]
pub fn exposure(s: Sums) -> u64
    requires { SumsFit s }
    ensures { pos result ≡ exposure_row s }
{
    let up = counted_up(s);
    let down = counted_down(s);
    up - down
}

fn counted_up(s: Sums) -> u64
    requires { SumsFit s }
    ensures { result ≡ counted_up s }
{
    s.assets
        + s.replacement
        + s.weighted
        + s.posted
        + s.written
        + s.financed
        + s.principal
        + s.agent
        + s.committed
}

fn counted_down(s: Sums) -> u64
    requires { SumsFit s }
    ensures { result ≡ counted_down s }
{
    s.deducted + s.offset + s.exempt + s.covered + s.netted + s.unconverted
}
