// The laws over every history of a case, each owed by the check because a function here names it.
ghost use Rattle.cases.specs.History.{AlwaysSettled, AlwaysBalanced, StepsFromAll};
ghost use Rattle.cases.specs.Cases.{SmallestRefusals};
ghost use Rattle.cases.specs.Applying.{SmallestInWords};
ghost use Rattle.cases.specs.Example.{ExampleRun};

// In every past of a case each claimant's postings add up to his award in the last signed division, and the estate's to
// the negative of all others.
pub fn settled_history()
    ensures settled { AlwaysSettled }
    ensures balanced { AlwaysBalanced }
{}

// From every case every call has a step, so that no case is without a longer past.
pub fn steps_from_all()
    ensures steps { StepsFromAll }
{}

// One run with two signings comes out as it is written.
pub fn example_run()
    ensures run { ExampleRun }
{}

// Where several refusals apply to a call, it answers the one with the smallest number.
pub fn smallest_refusals()
    ensures smallest { SmallestRefusals }
{}

// The same, with each refusal's test said in words.
pub fn smallest_in_words()
    ensures smallest { SmallestInWords }
{}
