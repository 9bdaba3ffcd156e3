// Numbers chosen by what the data says: the machine chooses between two values without a branch.
ghost use Rattle.std.specs.Prelude.{cond, ◌≡◌, ◌+◌, ◌≤◌};

// The bound lets a sum of chosen values be seen to fit without a look at the mark.
pub fn chosen(mark: bool, marked: u64, other: u64) -> u64
    ensures { (result ≡ cond mark marked other) × (result ≤ marked + other) }
{
    if mark { marked } else { other }
}
