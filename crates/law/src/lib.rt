// The law over whole runs of a coder and a decoder, and how two ends are compared.
#![tactic(auto)]

pub mod compare;

ghost use Rattle.law.specs.Law.{Law};

// States the law of runs, for every set of characteristics that keeps the law of sets, every raster and
// every list that memories may mean; there is nothing to do.
pub fn law_of_runs()
    ensures { Law }
{}
