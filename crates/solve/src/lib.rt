// A system settled, or a losing cycle with the fewest edges: what knots, fits and floors ask.
#![tactic(auto)]

ghost use Rattle.std.specs.Prelude.{◌≤◌};
ghost use Rattle.system.specs.Graph.{Joined};
ghost use Rattle.system.specs.Lent.{system_in};
ghost use Rattle.solve.specs.Solved.{SolvedBy};

use answer::Cycle;
use system::Constraints;

// What refutes a system: a losing cycle, and the values that its last round left.
#[derive(Clone, Copy)]
pub struct Unsettled {
    pub cycle: Cycle,
    pub values: [u32; 64],
}

// The least values that solve the system, or what refutes it.
pub fn solve(system: Constraints) -> Result<[u32; 64], Unsettled>
    requires le_nodes { (1 ≤ system.nodes) × (system.nodes ≤ 64) × (system.edges ≤ 256) }
    requires joined { Joined (system_in system).graph }
    ensures { SolvedBy (system_in system.entry) result }
{
    match system::settle(system) {
        Ok(values) => Ok(values),
        Err(values) => {
            // what does not settle loses on some cycle
            let cycle = cycle::shortest_cycle(system).unwrap();
            Err(Unsettled { cycle, values })
        }
    }
}
