// The held form of a record: the machine's classes beside the loop, and the schedule if there is one.
#![tactic(auto)]

ghost use Rattle.std.specs.Prelude.{◌≡◌};
ghost use Rattle.form.specs.Places.{empty_form};
ghost use Rattle.form.specs.Hold.{hold};
ghost use Rattle.form.specs.Outcome.{added_of};
ghost use Rattle.form.specs.Adding.{class_added, node_added, edge_added};

use answer::Refusal;

// A node's operation with its constant.
#[derive(Clone, Copy)]
pub enum Operation {
    Add(u32),
    Sub(u32),
    Mul(u32),
}

// A class of the board: `pipelined` is 0 for plain and 1 for pipelined.
#[derive(Clone, Copy)]
pub struct Class {
    pub latency: u8,
    pub units: u8,
    pub pipelined: u8,
}

#[derive(Clone, Copy)]
pub struct Node {
    pub class: u8,
    pub operation: Operation,
}

#[derive(Clone, Copy)]
pub struct Edge {
    pub from: u8,
    pub to: u8,
    pub delays: u8,
}

// A step of the loop's body, counted from 1. Run steps and iterations are counted apart.
#[derive(Clone, Copy)]
pub struct BodyStep(pub u16);

// The counts of a record's tables, and the length of its schedule; 0 means no schedule.
#[derive(Clone, Copy)]
pub struct Header {
    pub classes: u8,
    pub nodes: u8,
    pub edges: u16,
    pub length: u16,
}

// A plural of the header is a count, its singular the table that it counts: node v is `node[v]` for v below `nodes`.
// An edge is spread over three tables of numbers, so that loops can borrow them.
#[derive(Clone, Copy)]
pub struct Form {
    pub header: Header,
    pub class: [Class; 4],
    pub node: [Node; 64],
    pub from: [u8; 256],
    pub to: [u8; 256],
    pub delays: [u8; 256],
    pub start: [BodyStep; 64],
    pub retiming: [u8; 64],
}

// The edges of a loop, lent together: edge e is in place e of each table, for e below the count.
#[derive(Clone, Copy)]
pub struct Edges<'a> {
    pub count: u16,
    pub from: &'a [u8; 256],
    pub to: &'a [u8; 256],
    pub delays: &'a [u8; 256],
}

// A form with no place left for what was to be added: the form as it was, and what is refused.
#[derive(Clone, Copy)]
pub struct Full {
    pub form: Form,
    pub refusal: Refusal,
}

impl Form {
    // No class, node or edge, and 0 everywhere.
    pub fn empty() -> Self
        ensures { result ≡ empty_form }
    {
        Form {
            header: Header {
                classes: 0,
                nodes: 0,
                edges: 0,
                length: 0,
            },
            class: [Class {
                latency: 0,
                units: 0,
                pipelined: 0,
            }; 4],
            node: [Node {
                class: 0,
                operation: Operation::Add(0),
            }; 64],
            from: [0; 256],
            to: [0; 256],
            delays: [0; 256],
            start: [BodyStep(0); 64],
            retiming: [0; 64],
        }
    }

    // The edges, lent together.
    pub fn edges(&self) -> Edges<'_>
        ensures count { result.count ≡ self.now.header.edges }
        ensures tables { (result.from.now ≡ self.now.from) × (result.to.now ≡ self.now.to) × (result.delays.now ≡ self.now.delays) }
    {
        Edges {
            count: self.header.edges,
            from: &self.from,
            to: &self.to,
            delays: &self.delays,
        }
    }

    // One class more at the end of the table, or Count and the form as it was where there is no place.
    pub fn add_class(mut self, class: Class) -> Result<Self, Full>
        ensures { added_of result ≡ class_added self class }
    {
        let classes = self.header.classes;
        let full = 4 <= classes;
        if full {
            return Err(Full {
                form: self, // without the class
                refusal: Refusal::Count(0),
            });
        }
        let at = classes as usize;
        self.class[at] = class;
        self.header.classes = classes + 1;
        self.header.length = 0; // a schedule is of the loop as it was
        Ok(self)
    }

    // One node more at the end of the table, or Count and the form as it was where there is no place.
    pub fn add_node(mut self, node: Node) -> Result<Self, Full>
        ensures { added_of result ≡ node_added self node }
    {
        let nodes = self.header.nodes;
        let full = 64 <= nodes;
        if full {
            return Err(Full {
                form: self, // without the node
                refusal: Refusal::Count(0),
            });
        }
        let at = nodes as usize;
        self.node[at] = node;
        self.header.nodes = nodes + 1;
        self.header.length = 0;
        Ok(self)
    }

    // One edge more at the end of the tables, or Count and the form as it was where there is no place.
    pub fn add_edge(mut self, edge: Edge) -> Result<Self, Full>
        ensures { added_of result ≡ edge_added self edge }
    {
        let edges = self.header.edges;
        let full = 256 <= edges;
        if full {
            return Err(Full {
                form: self, // without the edge
                refusal: Refusal::Count(0),
            });
        }
        let at = edges as usize;
        self.from[at] = edge.from;
        self.to[at] = edge.to;
        self.delays[at] = edge.delays;
        self.header.edges = edges + 1;
        self.header.length = 0;
        Ok(self)
    }
}

// How many steps an operation holds its unit.
pub fn hold_of(class: Class) -> u8
    ensures { result ≡ hold class }
{
    if class.pipelined == 0 {
        return class.latency;
    }
    1
}
