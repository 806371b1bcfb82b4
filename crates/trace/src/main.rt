// Traces the code of a data file on a text input tape from the standard input: for each state the address, the stack from
// its top, the cells that are set and the instruction to come; then what was written, and how the run stands.
#![tactic(auto)]

use code::Instruction;
use disassembly::Mnemonic;
use image::admission::admit;
use image::admitted::Image;
use machine::run::Run;
use refusal::Refused;
use std::alloc::Global;
use std::io::{Read, Write};
use std::{fmt, fs, io};
use texts::input::TextInput;
use texts::output::TextOutput;
use units::strict::Strict;

// The steps that are traced at most.
const LID: u64 = 100;

type Traced<'a> = Run<'a, Strict, TextInput, TextOutput>;

// The stack from its top, or ε.
#[derive(Clone, Copy)]
struct Stack<'a, 'b>(&'a Traced<'b>);

impl fmt::Display for Stack<'_, '_> {
    fn fmt<W: fmt::Write>(&self, f: &mut fmt::Formatter<W>) -> fmt::Result {
        let Some(top) = self.0.word(0) else {
            return write!(f, "ε");
        };
        write!(f, "{top}")?;
        for word in (1..).map_while(|place| self.0.word(place)) {
            write!(f, ":{word}")?;
        }
        Ok(())
    }
}

// The cells that are set, by their numbers.
#[derive(Clone, Copy)]
struct Cells<'a>(&'a [Option<i32>]);

impl fmt::Display for Cells<'_> {
    fn fmt<W: fmt::Write>(&self, f: &mut fmt::Formatter<W>) -> fmt::Result {
        let mut comma = "";
        write!(f, "[")?;
        for (k, cell) in self.0.iter().enumerate() {
            if let Some(v) = cell {
                write!(f, "{comma}{}/{v}", k + 1)?;
                comma = ",";
            }
        }
        write!(f, "]")
    }
}

// The words of a text, in decimal, one to a line.
fn words(heap: Global, text: &str) -> anyhow::Result<Vec<u32>> {
    text.lines()
        .map(|line| Ok(line.parse::<u32>()?))
        .try_collect(heap)
}

fn print_state(rt: &HostRuntime, run: &Traced<'_>, code: &[Instruction]) -> io::Result<()> {
    let address = run.counter();
    print!(rt; "( {address} , {} , {} )", Stack(run), Cells(run.cells()))?;
    // Addresses count from 1.
    if let Some(instruction) = code.get(address.saturating_sub(1)) {
        print!(rt; " {}", Mnemonic(*instruction))?;
    }
    println!(rt; "")
}

// A state before each step, and the last one.
fn trace(rt: &HostRuntime, run: &mut Traced<'_>, code: &[Instruction]) -> anyhow::Result<()> {
    for _ in 0..=LID {
        print_state(rt, run, code)?;
        if run.advance(1).steps == 0 {
            break;
        }
    }
    rt.stdout().write_all(run.output().text())?;
    let status = run.advance(0).status;
    println!(rt; "{} {}", run.steps(), status.number())?;
    Ok(())
}

// The image of the words and the tape over the text, or the first refusal.
fn admitted(heap: Global, words: &[u32], text: Vec<u8>) -> Result<(Image, TextInput), Refused> {
    Ok((admit(heap, words)?, TextInput::new(text)?))
}

fn main(rt: HostRuntime) -> anyhow::Result<()> {
    let text = fs::read_to_string(&rt, "squares.words")?;
    let words = words(rt.alloc(), text.as_str())?;
    let mut bytes = Vec::new(rt.alloc());
    rt.stdin().read_to_end(&mut bytes)?;
    let (image, input) = match admitted(rt.alloc(), words.as_slice(), bytes) {
        Ok(both) => both,
        Err(refused) => return Ok(rt.println(refused)?),
    };
    let output = TextOutput::new(vec![in rt.alloc(); 0; 120]?);
    let mut run = Run::start(&image, Strict, input, output, LID);
    trace(&rt, &mut run, image.instructions())
}
