// The code of a whole program.
ghost use Rattle.std.specs.Prelude.{◌≡◌, ◌≤◌, length, IfOk, vec_len, OnOk, MatchResult};
ghost use Rattle.code.specs.Words.{InRange};
ghost use Rattle.syntax.specs.TreeOf.{tree_of};
ghost use Rattle.translator.specs.declared.failure.Failure.TheVariants.{WideOperand};
ghost use Rattle.translator.specs.Linear.{places};
ghost use Rattle.translator.specs.Published.{trans, linearise};
ghost use Rattle.translator.specs.Written.{words_of, WordOf, Fits};

use crate::emitter::{Emitter, Placed};
use crate::failure::Failure;
use code::{Instruction, encode};
use names::cells::Scope;
use std::alloc::{AllocError, Global};
use syntax::tree::Program;

pub fn emit(heap: Global, source: &[u8], program: &Program) -> Result<Vec<Placed>, Failure>
    requires { vec_len program.now.declared ≤ 64 }
    ensures { IfOk result (λ v. v.items ≡ linearise (trans (tree_of source.now program.now))) }
{
    let scope = Scope {
        source,
        declared: &program.declared,
    };
    let mut emitter = Emitter {
        scope,
        code: Vec::new(heap),
    };
    emitter.statements(&program.statements)?;
    Ok(emitter.code)
}

fn word(instruction: Instruction) -> Result<u32, Failure>
    ensures { MatchResult result (WordOf instruction) (λ e. (e ≡ WideOperand) × (InRange instruction → ⊥)) }
{
    encode(instruction).ok_or(Failure::WideOperand)
}

// The words of some code, which are there for instructions in range.
pub fn words_of(heap: Global, code: &[Placed]) -> Result<Vec<u32>, Failure>
    ensures words { IfOk result (λ v. v.items ≡ words_of code.now) }
    ensures range { OnOk result (Fits code.now) }
    ensures len { IfOk result (λ v. vec_len v ≡ length code.now) }
{
    // A loop, since after a chain with try_collect the check finds each word but not that each instruction has one.
    let mut words = Vec::new(heap);
    for (instruction, _) in code {
        words.push(word(*instruction)?)?;
    }
    Ok(words)
}

pub fn places_of(heap: Global, code: &[Placed]) -> Result<Vec<u32>, AllocError>
    ensures tokens { IfOk result (λ v. v.items ≡ places code.now) }
    ensures len { IfOk result (λ v. vec_len v ≡ length code.now) }
{
    code.iter().map(|(_, place)| *place).collect(heap)
}
