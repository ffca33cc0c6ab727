// From a system of constraints, a losing cycle with the fewest edges of all losing closed walks.
// A row holds, for a target node and a number of edges, at each node the most that a walk of so many edges from there
// to the target costs above what it gains, raised by BASE. What starts elsewhere starts at 0, too low to get there.
#![tactic(auto)]

ghost use Rattle.std.specs.Prelude.{◌≡◌, ℕ, ◌+◌, ◌-◌, ◌≤◌, ◌<◌, true, leb, get_or, set, replicate, IfSome};
ghost use Rattle.system.specs.Graph.{Joined};
ghost use Rattle.system.specs.Lent.{system_in};
ghost use Rattle.answer.specs.Outcome.{cycle_or};
ghost use Rattle.cycle.specs.Row.{base, roof, Worth, Row, Carried};
ghost use Rattle.cycle.specs.Found.{TablesIn, wide_in, FewestAt, BestStart, NextEdge, ClosedWalk, FoundCycle};

use answer::Cycle;
use system::Constraints;

// More than twice what 64 edges can cost or gain.
const BASE: u32 = 8388608;

// Where a closed walk with the fewest edges begins, and how many edges it has.
#[derive(Clone, Copy)]
struct Start {
    node: u8,
    count: u8,
}

// A value one edge earlier: up by the edge's cost, down by its gain, no lower than 0.
fn carried(value: u32, gain: u16, cost: u16) -> u32
    requires { value ≤ roof }
    ensures { (result ≡ value + cost - gain) × (result ≤ value + 65535) }
{
    (value + u32::from(cost)).saturating_sub(u32::from(gain))
}

// Whether an edge with this gain and cost gives at least the value, from what stands ahead of it.
fn gives(ahead: u32, gain: u16, cost: u16, value: u32) -> bool
    requires { (ahead ≤ roof) × (value ≤ roof) }
    ensures { (result ≡ leb (value + gain) (ahead + cost)) × (result ≡ true → value ≤ ahead + 65535) }
{
    value + u32::from(gain) <= ahead + u32::from(cost)
}

// The row of one edge more.
fn next_row(system: Constraints, row: &[u32; 64]) -> [u32; 64]
    requires { TablesIn system × ((v : ℕ) → get_or row.now v 0 ≤ roof) }
    ensures { Carried (wide_in system.entry) system.entry.edges row.now result }
{
    let mut next = [0u32; 64];
    for e in 0..system.edges {
        let i = e as usize;
        let u = system.tails[i] as usize;
        let v = system.heads[i] as usize;
        next[u] = next[u].max(carried(row[v], system.gains[i], system.costs[i]));
    }
    next
}

// The row of no edge: only the target itself is there.
fn first_row(target: u8) -> [u32; 64]
    requires { target < 64 }
    ensures { result ≡ set (replicate 64 0) target base }
{
    let mut row = [0u32; 64];
    row[target as usize] = BASE;
    row
}

// The row of so many edges.
fn row_of(system: Constraints, target: u8, count: u8) -> [u32; 64]
    requires { TablesIn system × (target < 64) × (count ≤ 64) }
    ensures { Row (wide_in system.entry) target count result }
{
    let mut row = first_row(target);
    for _k in 0..count {
        row = next_row(system, &row);
    }
    row
}

// How many edges the shortest losing closed walk through the node has, if one has fewer than the limit.
fn fewest_at(system: Constraints, node: u8, limit: u8) -> Option<u8>
    requires { TablesIn system × (node < 64) × (limit ≤ 65) }
    ensures { FewestAt (wide_in system.entry) node limit result }
{
    let mut row = first_row(node);
    for k in 1..limit {
        row = next_row(system, &row);
        if BASE < row[node as usize] {
            return Some(k);
        }
    }
    None
}

// The first node with the fewest edges, if a closed walk loses; one with more edges than there are nodes is never the shortest.
fn best_start(system: Constraints) -> Option<Start>
    requires { TablesIn system × (system.nodes ≤ 64) }
    ensures { BestStart (wide_in system.entry) system.entry.nodes result }
{
    let mut best = None;
    let mut limit = system.nodes + 1;
    for node in 0..system.nodes {
        if let Some(count) = fewest_at(system, node, limit) {
            best = Some(Start { node, count });
            limit = count;
        }
    }
    best
}

// The first edge out of the node that keeps the value, where `row` is for one edge fewer, if there is one.
fn next_edge(system: Constraints, row: &[u32; 64], node: u8, value: u32) -> Option<u16>
    requires { TablesIn system × ((v : ℕ) → get_or row.now v 0 ≤ roof) × (value ≤ roof) }
    ensures { NextEdge (wide_in system.entry) row.now node value result }
{
    for e in 0..system.edges {
        let i = e as usize;
        let v = system.heads[i] as usize;
        if system.tails[i] == node && gives(row[v], system.gains[i], system.costs[i], value) {
            return Some(e);
        }
    }
    None
}

// The losing closed walk that the start tells of, edge by edge.
fn walk_of(system: Constraints, start: Start) -> Cycle
    requires tables { TablesIn system }
    requires start { (start.node < 64) × (start.count ≤ 64) × Worth (wide_in system) start.node start.count start.node (base + 1) }
    ensures { ClosedWalk (wide_in system.entry) start.count result }
{
    let mut edges = [0u16; 64];
    let mut node = start.node;
    let mut value = BASE + 1;
    for i in 0..start.count {
        let row = row_of(system, start.node, start.count - i - 1);
        let e = next_edge(system, &row, node, value).unwrap();
        edges[i as usize] = e;
        node = system.heads[e as usize];
        value = row[node as usize];
    }
    Cycle {
        count: start.count,
        edges,
    }
}

// A losing cycle with the fewest edges, if a closed walk loses.
pub fn shortest_cycle(system: Constraints) -> Option<Cycle>
    requires { (system.nodes ≤ 64) × (system.edges ≤ 256) × Joined (system_in system).graph }
    ensures cycle { FoundCycle (system_in system.entry) (cycle_or result) }
    ensures some { IfSome result (λ c. 0 < c.count) }
{
    let start = best_start(system)?;
    Some(walk_of(system, start))
}
