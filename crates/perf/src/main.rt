// Runs the words of a few loops for a number of steps, and tells the time that each took.
#![tactic(auto)]

use image::admission::admit;
use machine::run::Run;
use refusal::Refused;
use std::env;
use std::time::Instant;
use tapes::words::{WordInput, WordOutput};
use units::strict::Strict;

// A loop that never ends.
struct Loop {
    name: &'static str,
    // no instructions, so that admission decodes them too
    words: &'static [u32],
}

static LOOPS: [Loop; 3] = [
    // c = 0; for ever { c = c + 1 }
    Loop {
        name: "count",
        words: &[
            0x8000_0000,
            0x5800_0001,
            0x5000_0001,
            0x8000_0001,
            1,
            0x5800_0001,
            0x8000_0000,
            0x6800_0003,
        ],
    },
    // i = 0; s = 0; for ever { j = 0; while (j < 1000) { s = i - s; j = j + 1; } i = i + 1; }
    Loop {
        name: "nested",
        words: &[
            0x8000_0000,
            0x5800_0001,
            0x8000_0000,
            0x5800_0003,
            0x8000_0000,
            0x5800_0002,
            0x5000_0002,
            0x8000_03E8,
            6,
            0x6800_0014,
            0x5000_0001,
            0x5000_0003,
            2,
            0x5800_0003,
            0x5000_0002,
            0x8000_0001,
            1,
            0x5800_0002,
            0x6000_0007,
            0x5000_0001,
            0x8000_0001,
            1,
            0x5800_0001,
            0x6000_0005,
        ],
    },
    // x = 0; s = 0; for ever { if (x % 3 == 0) s = x / 7; else s = s % 5 - 1; x = x + 1; }
    Loop {
        name: "branches",
        words: &[
            0x8000_0000,
            0x5800_0001,
            0x8000_0000,
            0x5800_0002,
            0x5000_0001,
            0x8000_0003,
            5,
            0x8000_0000,
            7,
            0x6800_0010,
            0x5000_0001,
            0x8000_0007,
            4,
            0x5800_0002,
            0x6000_0016,
            0x5000_0002,
            0x8000_0005,
            5,
            0x8000_0001,
            2,
            0x5800_0002,
            0x5000_0001,
            0x8000_0001,
            1,
            0x5800_0001,
            0x6000_0005,
        ],
    },
];

// The number of steps: the first argument, or a few.
fn wanted(rt: &HostRuntime) -> anyhow::Result<u32> {
    match env::args(rt)?.nth(1) {
        Some(text) => Ok(text.as_str().parse::<u32>()?),
        None => Ok(1000),
    }
}

// The name, steps and status on the output, so that the same run gives the same text; the time on the error output.
// Not inlined, and with name and words apart: else a step took a quarter longer, by where the compiler puts the machine's loop.
#[inline(never)]
fn measure(rt: &HostRuntime, name: &str, words: &[u32], steps: u32) -> anyhow::Result<()> {
    let image = match admit(rt.alloc(), words) {
        Ok(image) => image,
        Err(e) => return Ok(rt.println(Refused::from(e))?),
    };
    let input = WordInput::new(Vec::new(rt.alloc()));
    let output = WordOutput::new(Vec::new(rt.alloc()));
    let mut run = Run::start(&image, Strict, input, output, u64::from(steps));
    let start = Instant::now(rt)?;
    let told = run.advance(steps);
    let spent = start.elapsed(rt)?;
    println!(rt; "{} {} {}", name, told.steps, told.status.number())?;
    eprintln!(rt; "{} {} {}", name, told.steps, spent.as_nanos())?;
    Ok(())
}

fn main(rt: HostRuntime) -> anyhow::Result<()> {
    let steps = wanted(&rt)?;
    for looped in &LOOPS {
        measure(&rt, looped.name, looped.words, steps)?;
    }
    Ok(())
}
