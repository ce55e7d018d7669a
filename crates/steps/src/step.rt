// The steps of a proof are read whole: their form, and where their parts stand.
ghost use Rattle.std.specs.Prelude.{◌≡◌};
ghost use Rattle.steps.specs.Step.{add_at, step_at};

use passing::numbers::pass_numbers;
use reader::Reader;
use spelling::literals::read_literals;

// A clause that a step adds: its id, where its literals stand, how many they are, and where its hints stand.
#[derive(Clone, Copy)]
pub struct Clause {
    pub id: usize,
    pub literals: usize,
    pub size: usize,
    pub hints: usize,
}

// A step: a clause is added; ids are deleted, which stand at an offset.
#[derive(Clone, Copy)]
pub enum Step {
    Adds(Clause),
    Deletes(usize),
}

// The rest of a step that adds a clause, whose id stands at an offset. None where it is misformed.
#[tactic(auto, unfolding(crate::specs::Step::add_at))]
fn read_add(proof: &[u8], at: usize, highest: usize, last: usize, marks: &mut [u8]) -> Option<Step>
    ensures value { result ≡ (add_at proof.now at highest last marks.old).read }
    ensures marks_after { marks.new ≡ (add_at proof.now at highest last marks.old).marks }
{
    let Ok((n, literals)) = Reader::new(proof, at).number() else {
        return None;
    };
    let id = n as usize;
    if id <= highest {
        return None;
    }
    let (size, hints) = read_literals(proof, literals, last, marks)?;
    pass_numbers(proof, hints)?;
    let clause = Clause {
        id,
        literals,
        size,
        hints,
    };
    Some(Step::Adds(clause))
}

// The step at an offset: above the highest id, and of variables up to the last. A clause's literals are made false. None where it is
// misformed.
#[tactic(auto, unfolding(crate::specs::Step::step_at))]
pub fn read_step(
    proof: &[u8],
    at: usize,
    highest: usize,
    last: usize,
    marks: &mut [u8],
) -> Option<Step>
    ensures value { result ≡ (step_at proof.now at highest last marks.old).read }
    ensures marks_after { marks.new ≡ (step_at proof.now at highest last marks.old).marks }
{
    match Reader::new(proof, at).step_byte() {
        b'a' => read_add(proof, at + 1, highest, last, marks),
        b'd' => {
            pass_numbers(proof, at + 1)?;
            Some(Step::Deletes(at + 1))
        }
        _ => None,
    }
}
