// Tier 1 comes in units; the rows are in thousandths.
ghost use Rattle.std.specs.Prelude.{◌≡◌, ◌*◌};

pub fn thousandths(x: u32) -> u64
    ensures { result ≡ 1000 * x }
{
    1000 * u64::from(x)
}
