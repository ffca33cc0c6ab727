// What comes back: the refusals of the scope's table, their numbers and details, and cycles.
#![tactic(auto)]

ghost use Rattle.std.specs.Prelude.{◌≡◌, ◌<◌, ltb, None, Some};
ghost use Rattle.std.specs.Option.{ForSome};
ghost use Rattle.std.proofs.lemmas.List.Edits.{sets};
ghost use Rattle.lists.specs.Pick.{pick};
ghost use Rattle.answer.specs.Refused.{Verdict, number_of, details_of, details};
ghost use Rattle.answer.specs.Outcome.{no_cycle, cycle_or, cycle_list, told_list, answer_list};
ghost use Rattle.answer.specs.declared.Details.{Details};

// Every refusal, in the table's order, with its details in the table's order.
#[derive(Clone, Copy)]
pub enum Refusal {
    Short(u32),
    Mark(u32),
    Version(u32),
    Count(u32),
    Machine(u32),
    Node(u32),
    Edge(u32),
    Start(u32),
    Retiming(u32),
    Tail(u32),
    Bare,
    Knot,
    Dependence(u32),
    NoRetiming,
    Units(u32, u32),
    Size(u32),
    Long,
    Room(u32),
    Early(u32, u32, u32),
    Busy(u32, u32, u32),
}

// A refusal, and the cycle that proves it where one does.
#[derive(Clone, Copy)]
pub struct Refused {
    pub refusal: Refusal,
    pub cycle: Option<Cycle>,
    ghost handed: { ForSome cycle (λ c. 0 < c.count) },
}

// A refusal's details, or an answer's numbers; 0 where there are fewer.
#[derive(Clone, Copy)]
pub struct Details {
    pub first: u32,
    pub second: u32,
    pub third: u32,
}

// Edge numbers, head to tail: the first `count` places; the rest are 0.
#[derive(Clone, Copy)]
pub struct Cycle {
    pub count: u8,
    pub edges: [u16; 64],
}

impl Refusal {
    // Its number in the table.
    pub fn number(self) -> u32
        ensures { result ≡ number_of (Some self) }
    {
        match self {
            Refusal::Short(_) => 1,
            Refusal::Mark(_) => 2,
            Refusal::Version(_) => 3,
            Refusal::Count(_) => 4,
            Refusal::Machine(_) => 5,
            Refusal::Node(_) => 6,
            Refusal::Edge(_) => 7,
            Refusal::Start(_) => 8,
            Refusal::Retiming(_) => 9,
            Refusal::Tail(_) => 10,
            Refusal::Bare => 11,
            Refusal::Knot => 12,
            Refusal::Dependence(_) => 13,
            Refusal::NoRetiming => 14,
            Refusal::Units(_, _) => 15,
            Refusal::Size(_) => 16,
            Refusal::Long => 17,
            Refusal::Room(_) => 18,
            Refusal::Early(_, _, _) => 19,
            Refusal::Busy(_, _, _) => 20,
        }
    }

    // Its details in the table's order.
    pub fn details(self) -> Details
        ensures { result ≡ details_of (Some self) }
    {
        let none = numbers_of(0, 0, 0);
        match self {
            Refusal::Short(a)
            | Refusal::Mark(a)
            | Refusal::Version(a)
            | Refusal::Count(a)
            | Refusal::Machine(a)
            | Refusal::Node(a)
            | Refusal::Edge(a)
            | Refusal::Start(a)
            | Refusal::Retiming(a)
            | Refusal::Tail(a)
            | Refusal::Dependence(a)
            | Refusal::Size(a)
            | Refusal::Room(a) => numbers_of(a, 0, 0),
            Refusal::Bare | Refusal::Knot | Refusal::NoRetiming | Refusal::Long => none,
            Refusal::Units(a, b) => numbers_of(a, b, 0),
            Refusal::Early(a, b, c) => numbers_of(a, b, c),
            Refusal::Busy(a, b, c) => numbers_of(a, b, c),
        }
    }
}

// A refusal that no cycle stands beside.
impl From<Refusal> for Refused {
    ghost from_gives = { λ r e. (e.refusal ≡ r) × (e.cycle ≡ None) };

    fn from(refusal: Refusal) -> Refused {
        Refused {
            refusal,
            cycle: None,
        }
    }
}

impl Cycle {
    // No cycle.
    pub fn none() -> Self
        ensures { result ≡ no_cycle }
    {
        Cycle {
            count: 0,
            edges: [0; 64],
        }
    }
}

// An answer's numbers.
pub fn numbers_of(first: u32, second: u32, third: u32) -> Details
    ensures { result ≡ details first second third }
{
    Details {
        first,
        second,
        third,
    }
}

// What stands at a place of a cycle: its edge there, 0 past its count.
fn edge_within(edge: u16, place: usize, count: u8) -> u32
    ensures { result ≡ pick (ltb place count) edge 0 }
{
    if place < count as usize {
        return edge as u32;
    }
    0
}

// The edges of a cycle, then 0, into the places after its count.
fn fill_cycle(answer: &mut [u32; 69], cycle: Cycle)
    ensures { answer.new ≡ sets answer.old 5 (cycle_list cycle) }
{
    for i in 0..64usize {
        answer[5 + i] = edge_within(cycle.edges[i], i, cycle.count);
    }
}

// A number, what is told beside it, and a cycle, as others link them, in every place.
fn lay(answer: &mut [u32; 69], number: u32, told: Details, cycle: Option<Cycle>)
    ensures { (r : Verdict) → number ≡ number_of r → answer.new ≡ told_list r told (cycle_or cycle) }
{
    let handed = cycle.unwrap_or(Cycle::none());
    // what stood there does not matter
    *answer = [0; 69];
    answer[0] = number;
    answer[1] = told.first;
    answer[2] = told.second;
    answer[3] = told.third;
    answer[4] = handed.count as u32;
    fill_cycle(answer, handed);
}

// An answer that refuses nothing, as others link it: 0, its numbers, and a cycle if one is handed over.
pub fn tell(answer: &mut [u32; 69], numbers: Details, cycle: Option<Cycle>) -> u32
    ensures { (result ≡ number_of None) × (answer.new ≡ answer_list None numbers (cycle_or cycle)) }
{
    let number: u32 = 0;
    lay(answer, number, numbers, cycle);
    number
}

// A refusal as others link it: its number, its details, and the cycle that proves it, if one does.
pub fn refuse(answer: &mut [u32; 69], refusal: Refusal, cycle: Option<Cycle>) -> u32
    ensures number { result ≡ number_of (Some refusal) }
    ensures all { (numbers : Details) → answer.new ≡ answer_list (Some refusal) numbers (cycle_or cycle) }
{
    let number = refusal.number();
    lay(answer, number, refusal.details(), cycle);
    number
}
