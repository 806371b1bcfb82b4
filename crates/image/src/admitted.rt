// Admitted code.
ghost use Rattle.std.specs.Prelude.{◌≡◌, ◌≤◌, true, length, vec_len};
ghost use Rattle.image.specs.Bounds.{all_inside};

use code::Instruction;

// At most 4,096 instructions whose cells and targets exist.
#[derive(Drop)]
pub struct Image {
    pub(crate) code: Vec<Instruction>,
    ghost few: { vec_len code ≤ 4096 },
    ghost sound: { all_inside (vec_len code) code.items ≡ true },
}

impl Image {
    // The instructions, from address 1 on.
    pub fn instructions(&self) -> &[Instruction]
        ensures value { result.now ≡ self.now.code.items }
        ensures few { length result.now ≤ 4096 }
        ensures sound { all_inside (length result.now) result.now ≡ true }
    {
        self.code.as_slice()
    }
}
