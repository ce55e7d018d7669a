// What happens with a block of clauses, by mode.
#![tactic(auto)]

ghost use Rattle.std.specs.Prelude.{◌≡◌, true, map, ◌+◌, ◌≤◌};
ghost use Rattle.sink.specs.Run.{Ran};
ghost use Rattle.sink.specs.Lines.{clause_line};
ghost use Rattle.sink.specs.Block.{split, Whole};
ghost use Rattle.sink.specs.World.{world, sink_at, step};
ghost use Rattle.sink.specs.Lend.{part_base};
ghost use Rattle.sink.specs.AllTrue.{counted, evaluating};
ghost use Rattle.sink.specs.Skipped.{skipping};

mod bytes;
pub mod judge;
mod judge_block;
pub mod lines;
mod roomy;
pub mod store;

// What marks the last word of a clause.
pub const LAST: u32 = 2147483648;

// What a run over the formula is for: the text's length; its hard lines; its soft lines; the hard clauses as words; a model's
// lowest false clause and falsified weight; the tail's rows as words.
#[derive(Clone, Copy, PartialEq, Eq)]
pub enum Mode {
    Measure,
    Text,
    SoftText,
    Words,
    Evaluate,
    Tail,
}

// A mode, the weight of hard lines, and the columns of the tail's counter.
#[derive(Clone, Copy)]
pub struct Job {
    pub mode: Mode,
    pub top: u64,
    pub cols: u32,
}

// Where a run stands: the position in text or words, or the number of clauses passed; the lowest false clause's id, or 0; the
// falsified weight; the first variables of the tail's last row, 0 before the first, and of its next row. The definitions (World in
// specs/) say these numbers, so none of them is an Option.
#[derive(Clone, Copy)]
pub struct Sink {
    pub at: usize,
    pub bad: usize,
    pub lost: u64,
    pub prev: u32,
    pub row: u32,
}

// A model's truth so far: clauses passed, the lowest false one's id or 0, and whether a literal of the present clause is true.
#[derive(Clone, Copy)]
pub struct Judgement {
    pub at: usize,
    pub bad: usize,
    pub holds: bool,
}

// Where the outputs are lent from: the position, but the start in the mode Evaluate, where the position numbers the clauses.
pub fn part_base(job: Job, s: Sink) -> usize
    ensures { result ≡ part_base job.mode s.at }
{
    if evaluates(job) {
        return 0;
    }
    s.at
}

// Whether n bytes or words from where a run stands on are within an output's length.
pub fn room(s: Sink, n: usize, len: usize) -> bool
    ensures { result ≡ true → s.at + n ≤ len }
{
    digits::room(s.at, n, len)
}

// The sink at another position.
pub fn placed(s: Sink, at: usize) -> Sink
    ensures { result ≡ sink_at at s }
{
    Sink { at, ..s }
}

// Whether a run judges a model.
pub fn evaluates(job: Job) -> bool
    ensures { result ≡ evaluating job.mode }
{
    job.mode == Mode::Evaluate
}

// Whether a run passes over hard clauses.
pub fn skips(job: Job) -> bool
    ensures { result ≡ skipping job.mode }
{
    matches!(job.mode, Mode::SoftText | Mode::Tail)
}

// The sink after n clauses more.
pub fn passed(s: Sink, n: usize) -> Sink
    ensures { result ≡ sink_at (counted n s.at) s }
{
    if n == 0 {
        return s;
    }
    placed(s, digits::advance(s.at, n))
}

// The clauses of a block, by mode.
pub fn emit(
    job: Job,
    model: &[u8],
    text: &mut [u8],
    words: &mut [u32],
    s: Sink,
    block: &[u32],
) -> Sink
    requires { Whole block.now }
    ensures { Ran (step job model.now) (map clause_line (split block.now))
        (world s text.old words.old) (world result text.new words.new) }
{
    match job.mode {
        Mode::Measure => {
            let beside = digits::number_size(job.top) + 3;
            let at = bytes::size_block(s.at, beside, block);
            placed(s, at)
        }
        Mode::Text => {
            let at = bytes::text_block(text, s.at, job.top, block);
            placed(s, at)
        }
        Mode::Words => {
            let at = store::words_block(words, s.at, block);
            placed(s, at)
        }
        Mode::Evaluate => {
            let j = judge_block::judge_block(
                model,
                Judgement {
                    at: s.at,
                    bad: s.bad,
                    holds: false,
                },
                block,
            );
            Sink {
                at: j.at,
                bad: j.bad,
                ..s
            }
        }
        Mode::SoftText | Mode::Tail => s,
    }
}
