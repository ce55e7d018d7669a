// One run over the clauses of the formula finds the lowest false hard clause and adds up the falsified soft weight.
ghost use Rattle.instance.specs.Answers.{instance_of};
ghost use Rattle.instance.specs.Stores.{Stores};
ghost use Rattle.sizes.specs.Measured.{SizedBy};
ghost use Rattle.model.specs.Truth.{TruthOf};

use clauses::write_formula;
use constraint::Head;
use sink::{Job, Mode, Sink};
use sizing::Size;

// The file's events and groups stand in the tables; list is a store for a constraint's list. Nothing is written but list.
pub fn truth_of(
    file: &[u8],
    model: &[u8],
    head: Head,
    size: Size,
    durations: &[u8],
    resources: &[u8],
    groups: &[u8],
    list: &mut [u16],
) -> Sink
    requires { SizedBy file.now durations.now resources.now groups.now head size × Stores file.now durations.now resources.now groups.now list.old }
    ensures { TruthOf (instance_of file.now durations.now resources.now groups.now head) model.now result }
{
    let mut text = [0u8; 1];
    let mut words = [0u32; 1];
    let mode = Mode::Evaluate;
    let job = Job {
        mode,
        top: 0,
        cols: 0,
    };
    let start = Sink {
        at: 0,
        bad: 0,
        lost: 0,
        prev: 0,
        row: 0,
    };
    write_formula(
        job, model, &mut text, &mut words, start, file, head, durations, resources, groups, list,
    )
}
