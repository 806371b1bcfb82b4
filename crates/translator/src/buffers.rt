// The two buffers that a caller lends, for code words and for places. They are written once nothing can be refused any more.
ghost use Rattle.std.specs.Prelude.{◌≡◌, ◌≤◌, length};
ghost use Rattle.translator.specs.Written.{Written, Outcome};

use crate::emit::{places_of, words_of};
use crate::emitter::Placed;
use crate::refusals::Refusal;
use std::alloc::Global;

const MAX_CODE: usize = 4096;

fn fill(buffer: &mut [u32], words: &[u32])
    requires { length words.now ≤ length buffer.old }
    ensures { Written words.now buffer.old buffer.new }
{
    buffer[..words.len()].copy_from_slice(words);
}

// Answers the length of the code. The buffers are lent, since callers translate into memory that is theirs already.
pub fn store(
    heap: Global,
    emitted: &[Placed],
    code: &mut [u32],
    places: &mut [u32],
) -> Result<usize, Refusal>
    ensures { Outcome emitted.now code.old places.old result code.new places.new }
{
    if let Some((_, place)) = emitted.get(MAX_CODE) {
        return Err(Refusal::TooMuchCode(*place));
    }
    let length = emitted.len();
    if code.len() < length || places.len() < length {
        return Err(Refusal::SmallBuffer);
    }
    let words = words_of(heap, emitted)?;
    let tokens = places_of(heap, emitted)?;
    fill(code, &words);
    fill(places, &tokens);
    Ok(length)
}
