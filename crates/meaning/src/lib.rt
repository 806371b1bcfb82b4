// What a source means, and that its code does it. Each function's contract is theorems over the definitions of specs/.
#![tactic(auto)]

ghost use Rattle.meaning.specs.Examples.{Examples};
ghost use Rattle.meaning.specs.Promise.{RunsMeanSources, UnitsAgree, HistoriesMeanSources, HistoriesExist};
ghost use Rattle.meaning.specs.Sources.{OneProgram, Shallow};

// Any list of advances, then finishing, tells what the program means; another unit tells the same.
pub fn runs_mean_sources()
    ensures told { RunsMeanSources }
    ensures units { UnitsAgree }
{}

// The same for whoever makes the calls, by what each call gave.
pub fn histories_mean_sources()
    ensures promised { HistoriesMeanSources }
    ensures exist { HistoriesExist }
{}

// A source spells one program, with parentheses shallow enough for the machine's stack.
pub fn sources_spell_programs()
    ensures one { OneProgram }
    ensures shallow { Shallow }
{}

// Worked examples, from the bytes of their sources.
pub fn worked_examples()
    ensures { Examples }
{}
