// The engine's promises: theorems, each on the contract of a function that has its name, so that the crate is proved only with its proof.
ghost use Rattle.reports.specs.Command.{finding};
ghost use Rattle.reports.specs.Examples.{ExamplesHold};
ghost use Rattle.reports.specs.Layout.{LayoutFits};
ghost use Rattle.reports.specs.Machine.{own};
ghost use Rattle.reports.specs.Promise.{Whole, SpelledOnce, FoundInOrder, AnyOrder, WorthBounded, PhraseWords, Sets, SameTillNoted, Fair, FlushedStays};

// THE MAIN PROMISE: on every device, whatever is said and whenever power stops, the engine does what the plain engine does.
#[tactic(auto, using(crate::proofs::Whole::whole_finding))]
pub fn whole()
    ensures { Whole finding own }
{}

// The parts of the machine's memory have the room they need, and stand one after the other.
pub fn layout_fits()
    ensures { LayoutFits }
{}

// No two commands are spelled alike.
#[tactic(auto, using(crate::proofs::Reading::spelled_once))]
pub fn spelled_once()
    ensures { SpelledOnce }
{}

// The best first: all that match, each once, and whoever stands before another is better.
#[tactic(auto, using(crate::proofs::Promises::found_in_order))]
pub fn found_in_order()
    ensures { FoundInOrder }
{}

// The order in which documents came makes no difference to what is found.
#[tactic(auto, using(crate::proofs::Promises::any_order))]
pub fn any_order()
    ensures { AnyOrder }
{}

// What a word is worth in a document is at most what it is worth at best.
#[tactic(auto, using(crate::proofs::Promises::worth_bounded))]
pub fn worth_bounded()
    ensures { WorthBounded }
{}

// A phrase matches only where its words do, and a phrase of one word is the word.
#[tactic(auto, using(crate::proofs::Promises::phrase_words))]
pub fn phrase_words()
    ensures { PhraseWords }
{}

// What matches by and, or and not is as it should be, whatever way round.
#[tactic(auto, using(crate::proofs::Promises::sets))]
pub fn sets()
    ensures { Sets }
{}

// Between two notes every asking shows the same, whatever is put and removed.
#[tactic(auto, using(crate::proofs::Turns::same_till_noted))]
pub fn same_till_noted()
    ensures { SameTillNoted }
{}

// A word's worth rises with how often it stands and falls with length, all else equal.
#[tactic(auto, using(crate::proofs::Promises::fair))]
pub fn fair()
    ensures { Fair }
{}

// What was flushed stays, whatever a stop leaves of later writes to other pages.
#[tactic(auto, using(crate::proofs::Promises::flushed_stays))]
pub fn flushed_stays()
    ensures { FlushedStays }
{}

// What five questions find in four reports, by a table.
#[tactic(auto, using(crate::proofs::Examples::examples_hold))]
pub fn examples_hold()
    ensures { ExamplesHold }
{}
