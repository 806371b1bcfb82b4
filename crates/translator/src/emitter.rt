// What the code of a program is put into, piece by piece.
ghost use Rattle.std.specs.Prelude.{◌≤◌, length};

use code::Instruction;
use names::cells::Scope;

// An instruction, and the place of the token that it stands for: a pair, as the definitions have it, so that code is their list.
pub type Placed = (Instruction, u32);

// The names that statements may use, and the code so far.
#[derive(Drop)]
pub struct Emitter<'a> {
    pub scope: Scope<'a>,
    pub code: Vec<Placed>,
    ghost few: { length scope.declared.now ≤ 64 },
}
