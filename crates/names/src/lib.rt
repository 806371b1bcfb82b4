// The names of a program: how many are declared, each once, and which cell each has.
#![tactic(auto)]

ghost use Rattle.syntax.specs.TreeOf.{tree_of};
ghost use Rattle.names.specs.Names.{Answers};

pub mod cells;
pub mod refusals;
mod uses;

use cells::Scope;
use refusals::Refusal;
use syntax::tree::Program;

// Whether the names of a program are declared as they should be, and each name in the statements is.
pub fn check_names(source: &[u8], program: &Program) -> Result<(), Refusal>
    ensures { Answers (tree_of source.now program.now) result }
{
    let scope = Scope {
        source,
        declared: &program.declared,
    };
    scope.check_declared()?;
    scope.check_statements(&program.statements)
}

#[cfg(test)]
mod tests;
