// From words to an image.
ghost use Rattle.std.specs.Prelude.{◌≡◌, ◌<◌, ◌≤◌, length, position, IfSome, MatchResult};
ghost use Rattle.image.specs.Bounds.{cell_exists, target_exists, inside, is_outside};
ghost use Rattle.image.specs.Admission.{Decodes, Admitted, Refuses};

use crate::admitted::Image;
use crate::refusals::Refusal;
use code::{Instruction, decode};
use std::alloc::Global;

// An image has no more words than this.
pub(crate) const MAX_WORDS: usize = 4096;

// Whether a cell exists.
fn has_cell(n: u16) -> bool
    ensures { result ≡ cell_exists n }
{
    (1..=64).contains(&n)
}

// Whether a jump's target exists in code of a length, or is its end.
fn has_target(n: u16, len: usize) -> bool
    ensures { result ≡ target_exists len n }
{
    1 <= n && usize::from(n - 1) <= len
}

// Whether an instruction's cell or target exists in code of a length.
fn is_inside(instruction: Instruction, len: usize) -> bool
    ensures { result ≡ inside len instruction }
{
    match instruction {
        Instruction::Read(n)
        | Instruction::Write(n)
        | Instruction::Load(n)
        | Instruction::Store(n) => has_cell(n),
        Instruction::Jump(n) | Instruction::JumpIfZero(n) => has_target(n, len),
        _ => true,
    }
}

// The place, from 0, of the first instruction whose cell or target does not exist.
fn first_outside(code: &[Instruction]) -> Option<usize>
    ensures value { result ≡ position (is_outside (length code.now)) code.now }
    ensures within { IfSome result (λ place. place < length code.now) }
{
    let len = code.len();
    code.iter()
        .position(|instruction| !is_inside(*instruction, len))
}

// The instructions of these words, or the first word that is none.
fn decode_all(heap: Global, words: &[u32]) -> Result<Vec<Instruction>, Refusal>
    requires { length words.now ≤ 4096 }
    ensures { MatchResult result (λ code. Decodes words.now code.items) (λ e. Refuses words.now e) }
{
    let mut code = Vec::with_capacity(heap, words.len())?;
    for (k, word) in words.iter().enumerate() {
        let instruction = decode(*word).ok_or(Refusal::NotInstruction(k + 1))?;
        code.push_reserved(instruction);
    }
    Ok(code)
}

// The image of these words. The first question answered no gives the refusal: are there at most 4,096, is each an
// instruction, does each cell and target exist?
pub fn admit(heap: Global, words: &[u32]) -> Result<Image, Refusal>
    ensures { MatchResult result (λ image. Admitted words.now image.code.items) (λ e. Refuses words.now e) }
{
    if words.len() > MAX_WORDS {
        return Err(Refusal::TooLong);
    }
    let code = decode_all(heap, words)?;
    match first_outside(code.as_slice()) {
        Some(place) => Err(Refusal::OutOfBounds(place + 1)),
        None => Ok(Image { code }),
    }
}
