// Whether a loop has a knot, a cycle of edges with delay sum 0, and one with the fewest edges.
#![tactic(auto)]

ghost use Rattle.std.specs.Prelude.{◌≡◌, ℕ, ◌*◌, ◌≤◌, ◌<◌, get_or, IfErr};
ghost use Rattle.legal.specs.Loop.{Loop};
ghost use Rattle.tables.specs.Edges.{EndsIn, ToldBy};
ghost use Rattle.knots.specs.Outcome.{ranking_in};
ghost use Rattle.knots.specs.Found.{RanksFound, Untied};

use answer::{Cycle, Refusal, Refused};
use form::Edges;
use system::Constraints;

// A knot, and beside it the values of its system.
#[derive(Clone, Copy)]
pub struct Tied {
    pub knot: Cycle,
    pub ranks: [u32; 64],
}

// What the edges gain: a delay more than any cycle costs, which is 1 for each of 64 edges at most.
fn gains_of(edges: u16, delays: &[u8; 256]) -> [u16; 256]
    requires { edges ≤ 256 }
    ensures { (e : ℕ) → e < edges → get_or result e 0 ≡ 64 * get_or delays.now e 0 }
{
    let mut gains = [0u16; 256];
    for e in 0..edges as usize {
        gains[e] = 64 * u16::from(delays[e]);
    }
    gains
}

// Ranks that rise along every edge of delay 0, or a knot where the loop has one.
pub fn ranked(nodes: u8, edges: Edges) -> Result<[u32; 64], Tied>
    requires { EndsIn nodes edges }
    ensures found { (g : Loop) → ToldBy g nodes edges.entry → RanksFound g (ranking_in result) }
    ensures some { IfErr result (λ tied. 0 < tied.knot.count) }
{
    let gains = gains_of(edges.count, edges.delays);
    let costs = [1u16; 256];
    let system = Constraints {
        nodes,
        edges: edges.count,
        tails: edges.from,
        heads: edges.to,
        gains: &gains,
        costs: &costs,
    };
    match solve::solve(system) {
        Ok(ranks) => Ok(ranks),
        Err(refuted) => {
            let knot = refuted.cycle;
            let ranks = refuted.values;
            Err(Tied { knot, ranks })
        }
    }
}

// Refused with Knot and a knot where the loop has one.
pub fn unknotted(nodes: u8, edges: Edges) -> Result<(), Refused>
    requires { EndsIn nodes edges }
    ensures { (g : Loop) → ToldBy g nodes edges.entry → Untied g result }
{
    match ranked(nodes, edges) {
        Ok(_) => Ok(()),
        Err(tied) => Err(Refused {
            refusal: Refusal::Knot,
            cycle: Some(tied.knot),
        }),
    }
}
