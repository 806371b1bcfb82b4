// A run from its start to its end.
ghost use Rattle.std.specs.Prelude.{◌≡◌, ℕ, List, length};
ghost use Rattle.code.specs.Machine.{start, finish};
ghost use Rattle.machine.specs.Finishing.{report_of};
ghost use Rattle.machine.specs.Numbers.{status_number};
ghost use Rattle.machine.specs.View.{unit_of, tapes_of};
ghost use Rattle.meaning.specs.Promise.{advances};
ghost use Rattle.runner.specs.Driving.{LastOf, MeansSources};

use code::one_word_each;
use image::admitted::Image;
use machine::calls::Advanced;
use machine::finished::Finished;
use machine::run::Run;
use machine::status::Status;
use tapes::input::InputTape;
use tapes::output::OutputTape;
use units::arithmetic::Arithmetic;

// What a finished run gives back, with what its advances told: their steps together, and the last status.
#[derive(Drop)]
pub struct Driven<U, I, O> {
    pub finished: Finished<U, I, O>,
    pub steps: u64,
    pub last: Option<Status>,
}

// Starts a run, advances it by each allowance in turn, and finishes it.
pub fn drive<U: Arithmetic, I: InputTape, O: OutputTape>(
    image: &Image,
    unit: U,
    input: I,
    output: O,
    lid: u64,
    allowances: &[u32],
) -> Driven<U, I, O>
    ensures report { (places : List ℕ) → report_of I.waiting O.means places result.finished ≡ finish lid image.now.code.items places (advances (unit_of U.LEAST U.GREATEST U.narrowed) image.now.code.items lid allowances.now (start (tapes_of (I.waiting input) (O.means output)))) }
    ensures meant { MeansSources (unit_of U.LEAST U.GREATEST U.narrowed) (tapes_of (I.waiting input) (O.means output)) lid allowances.now image.now.code.items (λ places. report_of I.waiting O.means places result.finished) }
    ensures steps { result.steps ≡ result.finished.steps }
    ensures last { LastOf allowances.now result.last (status_number result.finished.status) }
    ensures rest { (O.means result.finished.output).rest ≡ length (O.means result.finished.output).written }
{
    one_word_each();
    let mut run = Run::start(image, unit, input, output, lid);
    let mut steps = 0;
    let mut last = None;
    for allowance in allowances {
        let advanced = run.advance(*allowance);
        steps += u64::from(advanced.steps);
        last = Some(advanced.status);
    }
    Driven {
        finished: run.finish(),
        steps,
        last,
    }
}
