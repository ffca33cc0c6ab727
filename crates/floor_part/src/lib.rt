// What attains the floor, and how an answer tells it.
#![tactic(auto)]

ghost use Rattle.std.specs.Prelude.{◌≡◌};
ghost use Rattle.answer.specs.Outcome.{cycle_or};
ghost use Rattle.floor_part.specs.Numbers.{kind_of, part_number, part_class, part_cycle, cycle_in};

use answer::Cycle;

// What attains the floor: the largest latency, the busy steps of a class, or a cycle.
#[derive(Clone, Copy)]
pub enum Part {
    Latency,
    Units(u32),
    Cycle(Cycle),
}

// The part's number among the answers.
pub fn part_number(part: Part) -> u32
    ensures { result ≡ part_number (kind_of part) }
{
    match part {
        Part::Latency => 1,
        Part::Units(_) => 2,
        Part::Cycle(_) => 3,
    }
}

// The class of a part that has one, else 0.
pub fn part_class(part: Part) -> u32
    ensures { result ≡ part_class (kind_of part) }
{
    match part {
        Part::Latency => 0,
        Part::Units(class) => class,
        Part::Cycle(_) => 0,
    }
}

// The cycle of a part that is one, else none.
pub fn part_cycle(part: Part) -> Option<Cycle>
    ensures told { cycle_or result ≡ part_cycle part }
    ensures handed { result ≡ cycle_in part }
{
    match part {
        Part::Latency => None,
        Part::Units(_) => None,
        Part::Cycle(cycle) => Some(cycle),
    }
}
