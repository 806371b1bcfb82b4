// From an accepted program to its code in the buffers.
ghost use Rattle.syntax.specs.TreeOf.{tree_of};
ghost use Rattle.translator.specs.Outcomes.{ProgramOutcome};

use crate::buffers::store;
use crate::emit::emit;
use crate::refusals::Refusal;
use names::check_names;
use std::alloc::Global;
use syntax::tree::Program;

// Answers the length of the code.
pub fn translate_program(
    heap: Global,
    source: &[u8],
    program: &Program,
    code: &mut [u32],
    places: &mut [u32],
) -> Result<usize, Refusal>
    ensures { ProgramOutcome (tree_of source.now program.now) code.old places.old result code.new places.new }
{
    check_names(source, program)?;
    let emitted = emit(heap, source, program)?;
    store(heap, &emitted, code, places)
}
