// What is proved of the grammar: each function's contract is one theorem over the definitions of specs/.
#![tactic(auto)]

ghost use Rattle.grammar.specs.Examples.{Examples};
ghost use Rattle.grammar.specs.Theorems.{Unique, Accepts, Runs, Refuses, Judges, Places};

// A program has one parse tree.
pub fn unique()
    ensures { Unique }
{}

pub fn accepts()
    ensures { Accepts }
{}

pub fn beginnings()
    ensures { Runs }
{}

pub fn refusals()
    ensures { Refuses }
{}

pub fn judged()
    ensures { Judges }
{}

pub fn places()
    ensures { Places }
{}

pub fn readings()
    ensures { Examples }
{}
