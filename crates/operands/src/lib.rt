// What the machine and the plain loop share: what a node computes of its operands, which the links into it name.
#![tactic(auto)]

ghost use Rattle.std.specs.Prelude.{◌≡◌, ℕ, ◌≤◌, ◌<◌};
ghost use Rattle.legal.specs.Loop.{Loop};
ghost use Rattle.machine.specs.Values.{computed};
ghost use Rattle.operands.specs.Tables.{HasRoom, handed, LinkedIn, TellsIn, FollowsIn, MeantIn};
ghost use Rattle.operands.specs.Combined.{opening, combined as combinedOf, closing};

use form::Operation;
use machine::Iteration;

// The edges into the nodes, linked: a walk along `next` meets the edges into one node. Edge e is in place e of each table, for e below the count.
#[derive(Clone, Copy)]
pub struct Inputs<'a> {
    pub nodes: u8,
    pub edges: u16,
    pub from: &'a [u8; 256],
    pub delays: &'a [u8; 256],
    pub next: &'a [u16; 256],
}

// What an edge of so many delays hands to an iteration: from the start table where it reaches before the first.
fn operand_of<'a>(
    from: u8,
    delays: u8,
    nodes: u8,
    iteration: Iteration,
    starts: &'a [u32],
    values: &'a [u32],
) -> u32
    requires { (from < nodes) × (delays ≤ 15) × HasRoom nodes iteration.0 starts.now values.now }
    ensures { result ≡ handed nodes starts.now values.now iteration.0 from delays }
{
    let i = iteration.0;
    let back = delays as u32;
    if i < back {
        return starts[15 * from as usize + (back - i) as usize - 1];
    }
    values[(i - back) as usize * nodes as usize + from as usize]
}

// The total before any operand: the constant. A difference begins with its first operand.
fn opening_of(operation: Operation) -> Option<u32>
    ensures { result ≡ opening operation }
{
    match operation {
        Operation::Add(constant) => Some(constant),
        Operation::Sub(_) => None,
        Operation::Mul(constant) => Some(constant),
    }
}

// The total with one operand more.
fn combined(operation: Operation, total: Option<u32>, operand: u32) -> u32
    ensures { result ≡ combinedOf operation total operand }
{
    let Some(total) = total else {
        return operand;
    };
    match operation {
        Operation::Add(_) => total.wrapping_add(operand),
        Operation::Sub(_) => total.wrapping_sub(operand),
        Operation::Mul(_) => total.wrapping_mul(operand),
    }
}

// The value after the last operand: a difference still loses its constant.
fn closing_of(operation: Operation, total: Option<u32>) -> u32
    ensures { result ≡ closing operation total }
{
    let total = total.unwrap_or(0);
    match operation {
        Operation::Add(_) => total,
        Operation::Sub(constant) => total.wrapping_sub(constant),
        Operation::Mul(_) => total,
    }
}

// What a node computes in an iteration: its operation on the operands that the links from `first` on name.
pub fn value_of<'a>(
    operation: Operation,
    first: u16,
    inputs: Inputs<'a>,
    iteration: Iteration,
    starts: &'a [u32],
    values: &'a [u32],
) -> u32
    requires { LinkedIn inputs × HasRoom inputs.nodes iteration.0 starts.now values.now × (first ≤ inputs.edges) × MeantIn inputs operation first }
    ensures { (g : Loop) (v : ℕ) → TellsIn g inputs.entry → FollowsIn g v operation first inputs.entry → result ≡ computed g starts.now values.now iteration.0 v }
{
    let mut total = opening_of(operation);
    let mut e = first;
    // the links are followed, and no index is counted
    while e < inputs.edges {
        let i = e as usize;
        let operand = operand_of(
            inputs.from[i],
            inputs.delays[i],
            inputs.nodes,
            iteration,
            starts,
            values,
        );
        total = Some(combined(operation, total, operand));
        e = inputs.next[i];
    }
    closing_of(operation, total)
}
