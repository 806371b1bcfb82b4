// Instructions are put behind the code so far, and a jump is patched.
ghost use Rattle.std.specs.Prelude.{◌≡◌, ◌<◌, suc, length, IfOk, OnOk, [], ◌∷◌, slice_set};
ghost use Rattle.syntax.specs.TreeOf.{name_of};
ghost use Rattle.translator.specs.Emitters.{table_of, Emits};

use crate::emitter::Emitter;
use crate::failure::Failure;
use code::Instruction;
use syntax::tree::Name;

impl Emitter<'_> {
    // The cell of a name. An undeclared one has 0, as in the published symbol table: an Err would be a refusal of no rule.
    pub fn cell(&self, name: Name) -> u16
        ensures { result ≡ table_of self.now.scope (name_of self.now.scope.source.now name) }
    {
        self.scope.cell(name).unwrap_or(0) as u16
    }

    pub fn put(&mut self, instruction: Instruction, place: u32) -> Result<(), Failure>
        ensures { OnOk result (Emits self.old ((instruction, place) ∷ []) self.new) }
    {
        self.code.push((instruction, place))?;
        Ok(())
    }

    // The address of the instruction that is put next, as an operand of a jump, which has 16 bits.
    pub fn next_address(&self) -> Result<u16, Failure>
        ensures { IfOk result (λ a. a ≡ suc (length self.now.code.items)) }
    {
        Ok(u16::try_from(self.code.len() + 1)?)
    }

    pub fn patch(&mut self, index: usize, jump: Instruction, place: u32)
        requires { index < length self.old.code.items }
        ensures scope { self.new.scope ≡ self.old.scope }
        ensures code { self.new.code.items ≡ slice_set self.old.code.items index (jump, place) }
    {
        self.code[index] = (jump, place);
    }
}
