// "its causes in table order": the fault of a record is a chain of tests, each with its cause, and the first that holds ends it.
ghost use Rattle.std.specs.Prelude.{◌≡◌};
ghost use Rattle.rules.specs.Faults as faults;
ghost use Rattle.rules.specs.Numbers.{cause_number, fault_in};

use rules::causes::Cause;

// A link of such a chain: behind it stands `?`.
#[tactic(auto, unfolding(rules::specs::Faults::cause))]
pub fn refuse_if(test: bool, which: Cause) -> Result<(), Cause>
    ensures { fault_in result ≡ faults.cause (cause_number which) test 0 }
{
    if test { Err(which) } else { Ok(()) }
}
