// From a syntax tree to the code of the AM machine.
#![tactic(auto)]

ghost use Rattle.translator.specs.Bounds.{StaysInside};
ghost use Rattle.translator.specs.Examples.{Published, Linear};
ghost use Rattle.translator.specs.Published.{LabelledOnce, Linearised};

mod buffers;
mod emit;
mod emitter;
mod expressions;
mod failure;
mod instructions;
pub mod program;
pub mod refusals;
mod statements;

// The published translation has jumps to tree addresses; linearised it is the linear code, which the emitters make.
pub fn linearised()
    ensures labels { LabelledOnce }
    ensures code { Linearised }
{}

// What a machine asks of the cells and targets of code holds of a program's.
pub fn stays_inside()
    ensures { StaysInside }
{}

// Two programs with the code that they are known to have.
pub fn worked_examples()
    ensures published { Published }
    ensures linear { Linear }
{}
