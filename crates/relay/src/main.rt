// Relays numbers from standard input to a tape, and tells what it does.
#![tactic(auto)]

mod relay;

use layers::holder::Holder;
use layers::quota::Quota;
use lines::LINE_LENGTH;
use refusal::Refused;
use relay::relay;
use std::io::{Read, Write};
use tapes::input::InputTape;
use texts::input::TextInput;
use texts::output::TextOutput;
use units::strict::Strict;

// As many numbers are read and put at most.
const MOST: usize = 1_000;

const MEMORY: usize = MOST * LINE_LENGTH;

fn run(rt: &HostRuntime, mut input: TextInput) -> anyhow::Result<()> {
    let memory = vec![in rt.alloc(); 0u8; MEMORY]?;
    let mut output = Quota::new(Holder::new(TextOutput::new(memory)), MOST);
    relay(rt, &Strict, &mut input, &mut output)?;
    let tape = output.into_below().into_below();
    println!(rt; "settled {}", tape.text().len() / LINE_LENGTH)?;
    rt.stdout().write_all(tape.text())?;
    Ok(())
}

fn main(rt: HostRuntime) -> anyhow::Result<()> {
    let mut bytes = Vec::new(rt.alloc());
    rt.stdin().take(MEMORY as u64).read_to_end(&mut bytes)?;
    match TextInput::new(bytes) {
        Ok(input) => run(&rt, input),
        Err(refusal) => Ok(rt.println(Refused::from(refusal))?),
    }
}
