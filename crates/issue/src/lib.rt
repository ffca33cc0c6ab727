// One node in one run step: whether its operands are there and a unit of its class is free, and then its value.
#![tactic(auto)]

ghost use Rattle.std.specs.Prelude.{◌≡◌, ◌+◌, ◌*◌, ◌≤◌, ◌<◌, length};
ghost use Rattle.answer.specs.Outcome.{refusal_in};
ghost use Rattle.operands.specs.Tables.{LinkedIn};
ghost use Rattle.issue.specs.Issue.{IssuableBy, MadeBy};
ghost use Rattle.issue.specs.Late.{missing, LateIn};
ghost use Rattle.issue.specs.Tables.{FirstFree};

use answer::Refusal;
use form::{Class, Operation, hold_of};
use machine::{Iteration, RunStep};
use operands::Inputs;

// A node as it is issued: its operation, the class that it runs on, and the first edge into it.
#[derive(Clone, Copy)]
pub struct Task {
    pub node: u8,
    pub operation: Operation,
    pub runs_on: u8,
    pub class: Class,
    pub first: u16,
}

// The first unit of a class that is free in a run step.
fn free_unit(free: &[u32; 32], number: u8, units: u8, step: RunStep) -> Option<u8>
    requires { (number < 4) × (units ≤ 8) }
    ensures { FirstFree free.now number units step.0 result }
{
    for x in 0..units {
        if free[8 * number as usize + x as usize] <= step.0 {
            return Some(x);
        }
    }
    None
}

// Whether what an edge hands to an iteration is not there in a run step: not issued, or not finished.
fn is_late(
    from: u8,
    delays: u8,
    nodes: u8,
    iteration: Iteration,
    step: RunStep,
    finish: &[u32],
) -> bool
    requires { (from < nodes) × (iteration.0 * nodes + nodes ≤ length finish.now) }
    ensures { result ≡ missing nodes finish.now iteration.0 step.0 from delays }
{
    let i = iteration.0;
    let back = delays as u32;
    if i < back {
        return false;
    }
    let done = finish[(i - back) as usize * nodes as usize + from as usize];
    if done == 0 {
        return true;
    }
    step.0 < done
}

// The first edge into a node whose operand is not there, by the links from `first` on.
fn late_edge<'a>(
    first: u16,
    inputs: Inputs<'a>,
    iteration: Iteration,
    step: RunStep,
    finish: &'a [u32],
) -> Option<u16>
    requires { LinkedIn inputs × (first ≤ inputs.edges) × (iteration.0 * inputs.nodes + inputs.nodes ≤ length finish.now) }
    ensures { LateIn inputs.entry first iteration.0 step.0 finish.now result }
{
    let mut e = first;
    // the links are followed, and no index is counted
    while e < inputs.edges {
        let i = e as usize;
        if is_late(
            inputs.from[i],
            inputs.delays[i],
            inputs.nodes,
            iteration,
            step,
            finish,
        ) {
            return Some(e);
        }
        e = inputs.next[i];
    }
    None
}

// A node in a run step: Early, else Busy, else its value and its finish step are written, and its unit is free when it lets go of it.
pub fn issue<'a>(
    task: Task,
    inputs: Inputs<'a>,
    iteration: Iteration,
    step: RunStep,
    starts: &'a [u32],
    values: &mut [u32],
    finish: &mut [u32],
    free: &mut [u32; 32],
) -> Result<(), Refusal>
    requires { IssuableBy task inputs iteration.0 step.0 starts.now values.old finish.old free.old }
    ensures { MadeBy task inputs.entry iteration.0 step.0 starts.now values.old finish.old free.old values.new finish.new free.new (refusal_in result) }
{
    if let Some(late) = late_edge(task.first, inputs, iteration, step, finish) {
        return Err(Refusal::Early(step.0, task.node as u32, late as u32));
    }
    let Some(unit) = free_unit(free, task.runs_on, task.class.units, step) else {
        return Err(Refusal::Busy(step.0, task.node as u32, task.runs_on as u32));
    };
    let value = operands::value_of(
        task.operation,
        task.first,
        inputs,
        iteration,
        starts,
        values,
    );
    let place = iteration.0 as usize * inputs.nodes as usize + task.node as usize;
    values[place] = value;
    finish[place] = step.0 + task.class.latency as u32;
    free[8 * task.runs_on as usize + unit as usize] = step.0 + hold_of(task.class) as u32;
    Ok(())
}
