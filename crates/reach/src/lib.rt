// How many other nodes each node reaches over edges of retimed delay 0: its weight in the list rule.
#![tactic(auto)]

ghost use Rattle.std.specs.Prelude.{◌≡◌, ℕ, ◌+◌, ◌≤◌, ◌<◌, eqb, get_or};
ghost use Rattle.lists.specs.Pick.{pick};
ghost use Rattle.legal.specs.Loop.{Loop};
ghost use Rattle.tables.specs.Edges.{EndsIn, ToldBy};
ghost use Rattle.reach.specs.Weight.{weight};
ghost use Rattle.reach.specs.Tables.{Retimed, weights_of};
ghost use Rattle.reach.specs.Marking.{Queued, Met};
ghost use Rattle.reach.specs.Ways.{TightsOf, LinkedBy, TightBy, SpreadBy, LevelledBy, ReachesBy};

use form::Edges;
use widths::wide;

// The edges out of each node, as links, with their heads and whether they are tight.
#[derive(Clone, Copy)]
struct Ways<'a> {
    edges: u16,
    first: &'a [u16; 64],
    next: &'a [u16; 256],
    heads: &'a [u8; 256],
    tights: &'a [u8; 256],
}

// 1 for an edge of so many delays whose nodes' retimings make it tight, else 0.
fn tight_mark(delays: u8, tail: u8, head: u8) -> u8
    ensures { result ≡ pick (eqb (delays + tail) head) 1 0 }
{
    if wide(delays) + wide(tail) == wide(head) {
        return 1;
    }
    0
}

// A 1 for each edge of retimed delay 0; 0 for the others, and past the edges.
fn tights_of(edges: Edges, retiming: &[u8; 64]) -> [u8; 256]
    requires { EndsIn 64 edges }
    ensures { TightsOf edges.entry retiming.now result }
{
    let mut tights = [0u8; 256];
    for e in 0..edges.count as usize {
        let tail = edges.from[e] as usize;
        let head = edges.to[e] as usize;
        tights[e] = tight_mark(edges.delays[e], retiming[tail], retiming[head]);
    }
    tights
}

// One edge: where it is tight and its head not marked yet, the head is marked and joins the queue. The queue's end.
fn mark(marks: &mut [u8; 64], queue: &mut [u8; 64], end: u8, head: u8, tight: u8) -> u8
    requires { Queued marks.old queue.old end × (head < 64) }
    ensures { Met head tight marks.old queue.old end marks.new queue.new result }
{
    if tight != 1 {
        return end;
    }
    if marks[head as usize] == 1 {
        return end;
    }
    marks[head as usize] = 1;
    queue[end as usize] = head;
    end + 1
}

// The edges out of one node, along the links: each is met once.
fn spread(marks: &mut [u8; 64], queue: &mut [u8; 64], node: u8, from: u8, ways: &Ways) -> u8
    requires { LinkedBy ways.now × Queued marks.old queue.old from × (node < 64) }
    ensures { SpreadBy ways.now node marks.old queue.old from marks.new queue.new result }
{
    let mut end = from;
    let mut e = ways.first[node as usize];
    while e < ways.edges {
        let i = e as usize;
        end = mark(marks, queue, end, ways.heads[i], ways.tights[i]);
        e = ways.next[i];
    }
    end
}

// One edge further: from the nodes that were reached last, at places `from` to `to` of the queue.
fn level(marks: &mut [u8; 64], queue: &mut [u8; 64], from: u8, to: u8, ways: &Ways) -> u8
    requires { LinkedBy ways.now × Queued marks.old queue.old to × (from ≤ to) }
    ensures { LevelledBy ways.now from marks.old queue.old to marks.new queue.new result }
{
    let mut end = to;
    for i in from..to {
        let node = queue[i as usize];
        end = spread(marks, queue, node, end, ways);
    }
    end
}

// At most `left` edges further. A node joins the queue once, so that all levels together cost at most N + E steps.
// The ways are lent: by value each level would keep a copy of them on the stack.
fn reach(marks: &mut [u8; 64], queue: &mut [u8; 64], from: u8, to: u8, ways: &Ways, left: u8) -> u8
    requires { LinkedBy ways.now × Queued marks.old queue.old to × (from ≤ to) }
    ensures { ReachesBy ways.now from left marks.old queue.old to marks.new queue.new result }
{
    if left == 0 {
        return to;
    }
    if from == to {
        return to;
    }
    let end = level(marks, queue, from, to, ways);
    reach(marks, queue, to, end, ways, left - 1)
}

// How many other nodes node v reaches: as many as have joined the queue after it.
fn weight_of(v: u8, nodes: u8, ways: &Ways) -> u8
    requires { (v < nodes) × (nodes ≤ 64) × LinkedBy ways.now }
    ensures { (g : Loop) (r : ℕ → ℕ) → g.graph.nodes ≡ nodes → TightBy g r ways.now → result ≡ weight g r v }
{
    let mut marks = [0u8; 64];
    marks[v as usize] = 1;
    let mut queue = [0u8; 64];
    queue[0] = v;
    let reached = reach(&mut marks, &mut queue, 0, 1, ways, nodes);
    reached - 1
}

// The weight of each node under the retimings; 0 past the nodes. At most N+E steps from each of the N nodes.
pub fn weights(nodes: u8, edges: Edges, retiming: &[u8; 64]) -> [u8; 64]
    requires { EndsIn nodes edges }
    ensures { (g : Loop) (r : ℕ → ℕ) → ToldBy g nodes edges.entry → Retimed r nodes retiming.now → result ≡ weights_of g r }
{
    let tights = tights_of(edges, retiming);
    let out = links::links_of(edges.from, edges.count);
    let ways = Ways {
        edges: edges.count,
        first: &out.first,
        next: &out.next,
        heads: edges.to,
        tights: &tights,
    };
    let mut weights = [0u8; 64];
    for v in 0..nodes {
        weights[v as usize] = weight_of(v, nodes, &ways);
    }
    weights
}
