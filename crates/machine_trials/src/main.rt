// Small codes that meet each fault, end and lid, and how their runs stand then: for each advance its steps and status, then
// counter, depth and top of the stack, the first two cells, and the fault.
#![tactic(auto)]

ghost use Rattle.std.specs.Prelude.{pos, negsuc};
ghost use Rattle.units.specs.Narrowing.{strict};
ghost use Rattle.units.specs.Laws.{strict_keeps, strict_inside};
ghost use Rattle.machine_trials.specs.Hundred as hundred;

use image::admission::admit;
use machine::fault::{Cause, Fault};
use machine::run::Run;
use refusal::Refused;
use std::{fmt, io};
use tapes::input::InputTape;
use tapes::words::WordInput;
use texts::output::TextOutput;
use units::arithmetic::Arithmetic;
use units::strict::Strict;

// A code, the numbers that wait for it, the room on its output tape, and how far its run may go.
#[derive(Clone, Copy)]
struct Case<'a> {
    name: &'a str,
    // no instructions, so that admission decodes them too
    words: &'a [u32],
    input: &'a [i32],
    room: usize,
    lid: u64,
    allowances: &'a [u32],
}

const NINE_STEPS: Case = Case {
    name: "",
    words: &[],
    input: &[],
    room: 0,
    lid: 9,
    allowances: &[9],
};

// Faults of the tapes, the cells and the stack, and the largest literal added.
static FAULTS: [Case; 9] = [
    Case {
        name: "25 add",
        words: &[0x80000005, 0x00000001],
        ..NINE_STEPS
    },
    Case {
        name: "25 store",
        words: &[0x58000001],
        ..NINE_STEPS
    },
    Case {
        name: "25 jmc",
        words: &[0x68000001],
        allowances: &[9, 9],
        ..NINE_STEPS
    },
    Case {
        name: "25 before 24",
        words: &[0x80000000, 0x00000004],
        ..NINE_STEPS
    },
    Case {
        name: "20",
        words: &[0x40000001],
        ..NINE_STEPS
    },
    Case {
        name: "21",
        words: &[0x80000003, 0x58000001, 0x48000001],
        ..NINE_STEPS
    },
    Case {
        name: "22 before 21",
        words: &[0x48000001],
        ..NINE_STEPS
    },
    Case {
        name: "22 load",
        words: &[0x80000001, 0x50000002],
        ..NINE_STEPS
    },
    Case {
        name: "23 add",
        words: &[0xBFFFFFFF, 0xBFFFFFFF, 0x00000001, 0xBFFFFFFF, 0x00000001],
        ..NINE_STEPS
    },
];

// Numbers outside the smaller unit's range.
static OUT_OF_HUNDRED: [Case; 2] = [
    Case {
        name: "23 literal",
        words: &[0x80000064, 0x80000065],
        ..NINE_STEPS
    },
    Case {
        name: "23 read",
        words: &[0x40000001, 0x40000002],
        input: &[100, 101],
        ..NINE_STEPS
    },
];

// Divisions, and their rounding.
static DIVISIONS: [Case; 5] = [
    Case {
        name: "24 divide",
        words: &[0x80000005, 0x80000000, 0x00000004],
        ..NINE_STEPS
    },
    Case {
        name: "24 modulo",
        words: &[0x80000005, 0x80000000, 0x00000005],
        ..NINE_STEPS
    },
    Case {
        name: "23 quotient",
        words: &[0xC0000000, 0x80000002, 0x00000003, 0xFFFFFFFF, 0x00000004],
        ..NINE_STEPS
    },
    Case {
        name: "exact quotient",
        words: &[
            0xC0000000, 0x80000002, 0x00000003, 0xFFFFFFFF, 0x00000005, 0x58000001,
        ],
        ..NINE_STEPS
    },
    Case {
        name: "rounded down",
        words: &[
            0xFFFFFFF9, 0x80000002, 0x00000004, 0x58000001, 0x80000007, 0xFFFFFFFE, 0x00000005,
            0x58000002,
        ],
        ..NINE_STEPS
    },
];

// Comparisons and jumps.
static ORDERS: [Case; 7] = [
    Case {
        name: "subtract and less",
        words: &[
            0x80000007, 0x80000002, 0x00000002, 0x58000001, 0x80000007, 0x80000002, 0x00000006,
            0x58000002,
        ],
        ..NINE_STEPS
    },
    Case {
        name: "at most and at least",
        words: &[
            0x80000002, 0x80000002, 0x0000000A, 0x58000001, 0x80000003, 0x80000002, 0x0000000B,
            0x58000002,
        ],
        ..NINE_STEPS
    },
    Case {
        name: "equal and unequal",
        words: &[
            0xFFFFFFFF, 0xFFFFFFFF, 0x00000007, 0x58000001, 0xFFFFFFFF, 0x80000001, 0x00000008,
            0x58000002,
        ],
        ..NINE_STEPS
    },
    Case {
        name: "jmc on minus one",
        words: &[0xFFFFFFFF, 0x68000005, 0x80000009, 0x58000001],
        ..NINE_STEPS
    },
    Case {
        name: "jmc on one",
        words: &[0x80000001, 0x68000005, 0x80000009, 0x58000001],
        ..NINE_STEPS
    },
    Case {
        name: "jmc on zero",
        words: &[0x80000000, 0x68000005, 0x80000009, 0x58000001],
        ..NINE_STEPS
    },
    Case {
        name: "to the end",
        words: &[0x60000002],
        ..NINE_STEPS
    },
];

// Ends, lids and allowances.
static STOPS: [Case; 8] = [
    Case {
        name: "nothing at lid 0",
        words: &[],
        lid: 0,
        allowances: &[5],
        ..NINE_STEPS
    },
    Case {
        name: "allowance 0",
        words: &[0x80000001],
        allowances: &[0, 1, 0],
        ..NINE_STEPS
    },
    Case {
        name: "past the lid",
        words: &[0x60000001],
        lid: 5,
        allowances: &[3, 3, 3],
        ..NINE_STEPS
    },
    Case {
        name: "past the end",
        words: &[0x80000001, 0x80000002, 0x80000003],
        allowances: &[2, 5, 5],
        ..NINE_STEPS
    },
    Case {
        name: "end at the lid",
        words: &[0x80000001, 0x80000002],
        lid: 2,
        allowances: &[5],
        ..NINE_STEPS
    },
    Case {
        name: "fault at the lid",
        words: &[0x80000001, 0x00000001],
        lid: 1,
        allowances: &[5],
        ..NINE_STEPS
    },
    Case {
        name: "two reads",
        words: &[0x40000001, 0x40000002],
        input: &[4, -4],
        allowances: &[1, 1],
        ..NINE_STEPS
    },
    Case {
        name: "room for one",
        words: &[0x80000003, 0x58000001, 0x48000001, 0x48000001],
        room: 1,
        ..NINE_STEPS
    },
];

// Numbers from −100 to 100, so that reading a number can fail.
#[derive(Clone, Copy)]
struct Hundred;

impl Arithmetic for Hundred {
    const LEAST: i32 = -100;

    const GREATEST: i32 = 100;

    ghost LEAST = { negsuc 99 };

    ghost GREATEST = { pos 100 };

    ghost narrowed = { strict (negsuc 99) (pos 100) };

    ghost low = { hundred.low };

    ghost high = { hundred.high };

    ghost keeps = { strict_keeps (negsuc 99) (pos 100) };

    ghost inside = { strict_inside (negsuc 99) (pos 100) };

    fn narrow(&self, x: i64) -> Option<i32> {
        i32::try_from(x)
            .ok()
            .filter(|v| (Self::LEAST..=Self::GREATEST).contains(v))
    }
}

// A number, or a dash.
#[derive(Clone, Copy)]
struct Number(Option<i32>);

impl fmt::Display for Number {
    fn fmt<W: fmt::Write>(&self, f: &mut fmt::Formatter<W>) -> fmt::Result {
        match self.0 {
            Some(v) => write!(f, "{v}"),
            None => write!(f, "-"),
        }
    }
}

#[derive(Clone, Copy)]
struct Told(Fault);

impl fmt::Display for Told {
    fn fmt<W: fmt::Write>(&self, f: &mut fmt::Formatter<W>) -> fmt::Result {
        let Fault { cause, address } = self.0;
        write!(f, "fault {} at {address}", cause.number())?;
        if let Cause::NoRoom(pinch) = cause {
            write!(f, " pinch {} {}", pinch.depth, pinch.reason.number())?;
        }
        Ok(())
    }
}

fn print_state<U: Arithmetic>(
    rt: &HostRuntime,
    run: &Run<'_, U, WordInput, TextOutput>,
) -> io::Result<()> {
    let counter = run.counter();
    let depth = (0..).map_while(|place| run.word(place)).count();
    let top = Number(run.word(0));
    print!(rt; "; counter {counter}; stack {depth} top {top}; cells")?;
    for cell in run.cells().iter().take(2) {
        print!(rt; " {}", Number(*cell))?;
    }
    if let Some(fault) = run.fault() {
        print!(rt; "; {}", Told(fault))?;
    }
    println!(rt; "")
}

fn try_case<U: Arithmetic + Drop>(rt: &HostRuntime, unit: U, case: &Case) -> anyhow::Result<()> {
    let name = case.name;
    let image = match admit(rt.alloc(), case.words) {
        Ok(image) => image,
        Err(e) => return Ok(println!(rt; "{name}: {}", Refused::from(e))?),
    };
    let waiting = WordInput::new(case.input.to_vec(rt.alloc())?);
    let memory = TextOutput::new(vec![in rt.alloc(); 0; case.room.saturating_mul(12)]?);
    let mut run = Run::start(&image, unit, waiting, memory, case.lid);
    print!(rt; "{name}:")?;
    for allowance in case.allowances {
        let told = run.advance(*allowance);
        print!(rt; " {}/{}", told.steps, told.status.number())?;
    }
    print_state(rt, &run)?;
    Ok(())
}

fn try_all<U: Arithmetic + Copy>(rt: &HostRuntime, unit: U, cases: &[Case]) -> anyhow::Result<()> {
    for case in cases {
        try_case(rt, unit, case)?;
    }
    Ok(())
}

// A full stack, and then one word more of code.
fn on_full_stack(rt: &HostRuntime, name: &str, last: u32) -> anyhow::Result<()> {
    let mut words = vec![in rt.alloc(); 0x8000_0007; 68]?;
    words.push(last)?;
    // not `..NINE_STEPS`: the borrow checker covers no reference that lives as long as two lifetimes have in common
    let case = Case {
        name,
        words: words.as_slice(),
        input: &[],
        room: 0,
        lid: 99,
        allowances: &[99],
    };
    try_case(rt, Strict, &case)
}

fn main(rt: HostRuntime) -> anyhow::Result<()> {
    try_all(&rt, Strict, &FAULTS)?;
    try_all(&rt, Hundred, &OUT_OF_HUNDRED)?;
    try_all(&rt, Strict, &DIVISIONS)?;
    try_all(&rt, Strict, &ORDERS)?;
    try_all(&rt, Strict, &STOPS)?;
    on_full_stack(&rt, "26 literal", 0x80000001)?;
    on_full_stack(&rt, "26 load unset", 0x50000001)?;
    on_full_stack(&rt, "space for one more off", 0x58000001)
}
