// Constraint systems y(tail) + cost ≤ y(head) + gain over the edges of a graph: the least values that solve one, by rounds from 0.
#![tactic(auto)]

ghost use Rattle.std.specs.Prelude.{◌≡◌, ℕ, ◌<◌, ◌≤◌, get_or};
ghost use Rattle.system.specs.Graph.{Joined};
ghost use Rattle.system.specs.Outcome.{settled_in};
ghost use Rattle.system.specs.Lent.{system_in};
ghost use Rattle.system.specs.Rounds.{Rounded, settled_of};

// A system in lent tables: edge e is in place e of each, for e below the count.
#[derive(Clone, Copy)]
pub struct Constraints<'a> {
    pub nodes: u8,
    pub edges: u16,
    pub tails: &'a [u8; 256],
    pub heads: &'a [u8; 256],
    pub gains: &'a [u16; 256],
    pub costs: &'a [u16; 256],
}

// One round over the edges, and whether it raised a value. 63 rounds of 256 edges raise no value above the bound, and a u32 has room for one more.
fn one_round(values: &mut [u32; 64], system: Constraints) -> bool
    requires nodes_bound { (system.nodes ≤ 64) × (system.edges ≤ 256) }
    requires joined { Joined (system_in system).graph }
    requires by_index { (v : ℕ) → get_or values.old v 0 ≤ 1056948480 }
    ensures { Rounded (system_in system.entry) values.old values.new result }
{
    let mut raised = false;
    for e in 0..system.edges {
        let i = e as usize;
        let tail = system.tails[i] as usize;
        let head = system.heads[i] as usize;
        let gain = u32::from(system.gains[i]);
        let have = values[head] + gain;
        let want = values[tail] + u32::from(system.costs[i]);
        if have < want {
            values[head] = want - gain;
            raised = true;
        }
    }
    raised
}

// Rounds from all zeros: the values that solve the system after a round that raises nothing; where round number `nodes` still raises, those of that round.
pub fn settle(system: Constraints) -> Result<[u32; 64], [u32; 64]>
    requires le_nodes { (1 ≤ system.nodes) × (system.nodes ≤ 64) × (system.edges ≤ 256) }
    requires joined { Joined (system_in system).graph }
    ensures { settled_in result ≡ settled_of (system_in system.entry) }
{
    let mut values = [0u32; 64];
    for _round in 0..system.nodes {
        let raised = one_round(&mut values, system);
        if !raised {
            return Ok(values);
        }
    }
    Err(values)
}
