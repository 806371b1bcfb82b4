// Puts a list of numbers for which there is room.
ghost use Rattle.std.specs.Prelude.{◌≤◌, length};
ghost use Rattle.layers.specs.Layers.{Sent};

use tapes::output::OutputTape;

pub(crate) fn send<O: OutputTape>(output: &mut O, words: &[i32])
    requires { length words.now ≤ (O.means output.old).room }
    ensures { Sent (O.means output.old) words.now (O.means output.new) }
{
    for word in words {
        output.put(*word).unwrap();
    }
}
