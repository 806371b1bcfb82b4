// From a source to the report of its run.
#![tactic(auto)]

pub mod drive;

ghost use Rattle.runner.specs.Calls.{AlwaysAdmitted, CallsMeanSources, DrivesMeanSources};

use code::one_word_each;

// The report of a run is what its source means, whoever makes the calls.
pub fn calls_mean_sources()
    ensures calls { CallsMeanSources }
    ensures drives { DrivesMeanSources }
{
    one_word_each();
}

// What is accepted is always admitted.
pub fn accepted_code_is_admitted()
    ensures { AlwaysAdmitted }
{
    one_word_each();
}
