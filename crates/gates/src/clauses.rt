// Starts, and kind 6's variable.
ghost use Rattle.std.specs.Prelude.{[], ◌∷◌, map, ◌≤◌, ◌<◌};
ghost use Rattle.scope.specs.Cnf.{opp, and, gate};
ghost use Rattle.sink.specs.Run.{Ran};
ghost use Rattle.sink.specs.Lines.{clause_line, lines};
ghost use Rattle.sink.specs.World.{world, step};
ghost use Rattle.counters.specs.Literals.{Literal};
ghost use Rattle.gates.specs.Units.{start_clauses};

use sink::{Job, LAST, Sink};

// Kind 6's variable: o is the AND of c1 and not cj.
pub fn write_short(
    job: Job,
    model: &[u8],
    text: &mut [u8],
    words: &mut [u32],
    s: Sink,
    c1: u32,
    cj: u32,
    o: u32,
) -> Sink
    requires { Literal c1 × Literal cj × (o < 1073741824) }
    ensures { Ran (step job model.now) (lines o (gate (and (c1 ∷ opp cj ∷ [])) ∷ []))
        (world s text.old words.old) (world result text.new words.new) }
{
    let yes = 2 * o + LAST;
    let no = 2 * o + 1 + LAST;
    sink::emit(
        job,
        model,
        text,
        words,
        s,
        &[
            c1,
            no,
            row_words::opposite(cj),
            no,
            row_words::opposite(c1),
            cj,
            yes,
        ],
    )
}

// The two clauses of an event's start, where y and v are its variables Y and S at a time that is the first or not.
pub fn write_start(
    job: Job,
    model: &[u8],
    text: &mut [u8],
    words: &mut [u32],
    s: Sink,
    first: bool,
    y: u32,
    v: u32,
) -> Sink
    requires { (1 ≤ y) × (y < 1073741824) × (v < 1073741824) }
    ensures { Ran (step job model.now) (map clause_line (start_clauses first y v))
        (world s text.old words.old) (world result text.new words.new) }
{
    let yes = 2 * v + LAST;
    let no = 2 * v + 1 + LAST;
    if first {
        return sink::emit(job, model, text, words, s, &[2 * y, no, 2 * y + 1, yes]);
    }
    sink::emit(
        job,
        model,
        text,
        words,
        s,
        &[2 * y, no, 2 * (y - 1), 2 * y + 1, yes],
    )
}
