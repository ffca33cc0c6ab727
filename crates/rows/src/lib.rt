// A row of each table of a record: its fields in layout order, the first at the row's offset.
#![tactic(auto, using(std::proofs::lemmas::Grind::common_steps, field::specs::Laws::taken_stopped), unfolding(crate::specs::Rows::class_at, crate::specs::Rows::node_at, crate::specs::Rows::edge_at, crate::specs::Rows::start_at, crate::specs::Rows::operation_of, lists::specs::Pick::pick))]

ghost use Rattle.std.specs.Prelude.{◌≡◌, ◌+◌, ◌-◌, ◌≤◌, ◌<◌};
ghost use Rattle.rows.specs.Rows.{ClassRead, NodeRead, EdgeRead, StartRead, operation_of};

use answer::Refusal;
use field::Kind;
use form::{BodyStep, Class, Edge, Node, Operation};

// A node's start and retiming.
#[derive(Clone, Copy)]
pub struct Placed {
    pub start: BodyStep,
    pub retiming: u8,
}

// Latency, units and whether it is pipelined.
pub fn class_row(s: &[u8], at: usize) -> Result<Class, Refusal>
    requires { at ≤ 50000 }
    ensures { ClassRead s.now at result }
{
    let latency = field::take(s, at, 1, 1, 8, Kind::Machine)?;
    let units = field::take(s, at + 1, 1, 1, 8, Kind::Machine)?;
    let pipelined = field::take(s, at + 2, 1, 0, 1, Kind::Machine)?;
    Ok(Class {
        latency: latency as u8,
        units: units as u8,
        pipelined: pipelined as u8,
    })
}

// The operation of a code, with its constant.
fn operation_of(code: u32, constant: u32) -> Operation
    ensures { result ≡ operation_of code constant }
{
    match code {
        0 => Operation::Add(constant),
        1 => Operation::Sub(constant),
        _ => Operation::Mul(constant),
    }
}

// The largest number below a count, 0 if it counts nothing.
fn last_of(count: u8) -> u32
    ensures { (result ≡ count - 1) × (result < 256) }
{
    count.saturating_sub(1) as u32
}

// Class, operation and constant; the class is below the number of classes.
pub fn node_row(s: &[u8], at: usize, classes: u8) -> Result<Node, Refusal>
    requires { at ≤ 50000 }
    ensures { NodeRead s.now at classes result }
{
    let last = last_of(classes);
    let class = field::take(s, at, 1, 0, last, Kind::Node)?;
    let code = field::take(s, at + 1, 1, 0, 2, Kind::Node)?;
    let constant = field::take(s, at + 2, 4, 0, 4294967295, Kind::Node)?;
    Ok(Node {
        class: class as u8,
        operation: operation_of(code, constant),
    })
}

// Tail, head and delays; both ends are below the number of nodes.
pub fn edge_row(s: &[u8], at: usize, nodes: u8) -> Result<Edge, Refusal>
    requires { at ≤ 50000 }
    ensures { EdgeRead s.now at nodes result }
{
    let last = last_of(nodes);
    let from = field::take(s, at, 1, 0, last, Kind::Edge)?;
    let to = field::take(s, at + 1, 1, 0, last, Kind::Edge)?;
    let delays = field::take(s, at + 2, 1, 0, 15, Kind::Edge)?;
    Ok(Edge {
        from: from as u8,
        to: to as u8,
        delays: delays as u8,
    })
}

// The last step at which an operation can start, 0 if the body is too short for it.
fn last_start(length: u16, latency: u8) -> u32
    ensures { (result ≡ length + 1 - latency) × (result < 65537) }
{
    let end = length as u32 + 1;
    end.saturating_sub(latency as u32)
}

// Start and retiming; an operation of this latency starts and ends in the body.
pub fn start_row(s: &[u8], at: usize, length: u16, latency: u8) -> Result<Placed, Refusal>
    requires { (at ≤ 50000) × (length ≤ 512) }
    ensures { StartRead s.now at length latency result }
{
    let last = last_start(length, latency);
    let start = field::take(s, at, 2, 1, last, Kind::Start)?;
    let retiming = field::take(s, at + 2, 1, 0, 63, Kind::Retiming)?;
    Ok(Placed {
        start: BodyStep(start as u16),
        retiming: retiming as u8,
    })
}
