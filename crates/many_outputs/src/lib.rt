// What an answer of several numbers leaves with a caller in C: each in an output of its own.
#![tactic(auto)]

ghost use Rattle.std.specs.Prelude.{◌≡◌};
ghost use Rattle.scope.specs.Answers.{means};
ghost use Rattle.calls.specs.Call.{call, leaves};
ghost use Rattle.calls.specs.Outputs.{amounts, formula_size, instance_size};

use calls::refuse;
use scope::{FormulaSize, Infeasibility, InstanceSize, Objective, Refusal};

// How much an instance holds.
pub fn leave_counts(
    answer: Result<InstanceSize, Refusal>,
    times: &mut u64,
    events: &mut u64,
    resources: &mut u64,
    groups: &mut u64,
    constraints: &mut u64,
    value: &mut u64,
) -> u32
    ensures { call result value.new
        (instance_size times.new events.new resources.new groups.new constraints.new)
        ≡ leaves (means answer) value.old
        (instance_size times.old events.old resources.old groups.old constraints.old) }
{
    match answer {
        Ok(counts) => {
            *times = u64::from(counts.times);
            *events = u64::from(counts.events);
            *resources = u64::from(counts.resources);
            *groups = u64::from(counts.groups);
            *constraints = u64::from(counts.constraints);
            0
        }
        Err(f) => refuse(f, value),
    }
}

// What a formula needs of the stores.
pub fn leave_sizes(
    answer: Result<FormulaSize, Refusal>,
    variables: &mut u64,
    clauses: &mut u64,
    words: &mut u64,
    value: &mut u64,
) -> u32
    ensures { call result value.new (formula_size variables.new clauses.new words.new)
        ≡ leaves (means answer) value.old
        (formula_size variables.old clauses.old words.old) }
{
    match answer {
        Ok(sizes) => {
            *variables = sizes.variables;
            *clauses = sizes.clauses;
            *words = sizes.words;
            0
        }
        Err(f) => refuse(f, value),
    }
}

// A score's two amounts.
pub fn leave_amounts(
    answer: Result<(Infeasibility, Objective), Refusal>,
    infeasibility: &mut u64,
    objective: &mut u64,
    value: &mut u64,
) -> u32
    ensures { call result value.new (amounts infeasibility.new objective.new)
        ≡ leaves (means answer) value.old (amounts infeasibility.old objective.old) }
{
    match answer {
        Ok((i, o)) => {
            *infeasibility = i.0;
            *objective = o.0;
            0
        }
        Err(f) => refuse(f, value),
    }
}
