// What the rules ask of a form, in tables of numbers that can be lent: a reference to a form has no proof, and a copy of one has 1.7 KB.
#![tactic(auto)]

ghost use Rattle.std.specs.Prelude.{◌≡◌, ◌≤◌};
ghost use Rattle.form.specs.Ranges.{WellFormed};
ghost use Rattle.tables.specs.Most.{most_of};
ghost use Rattle.tables.specs.Times.{times_of};

use form::{Class, Form};

// For each node its class, latency, start and retiming.
#[derive(Clone, Copy)]
pub struct Timetable {
    pub classes: u8,
    pub nodes: u8,
    pub length: u16,
    pub class: [Class; 4],
    pub runs: [u8; 64],
    pub latency: [u8; 64],
    pub start: [u16; 64],
    pub retiming: [u8; 64],
}

// The form's timetable; 0 past the nodes.
pub fn times_of(form: &Form) -> Timetable
    requires { WellFormed form.now }
    ensures { result ≡ times_of form.now }
{
    // tables of its own: to index the form's would copy all of it first
    let class = form.class;
    let node = form.node;
    let begins = form.start;
    let retiming = form.retiming;
    let mut runs = [0u8; 64];
    let mut latency = [0u8; 64];
    let mut start = [0u16; 64];
    for v in 0..form.header.nodes as usize {
        let number = node[v].class;
        let row = class[number as usize];
        runs[v] = number;
        latency[v] = row.latency;
        start[v] = begins[v].0;
    }
    Timetable {
        classes: form.header.classes,
        nodes: form.header.nodes,
        length: form.header.length,
        class,
        runs,
        latency,
        start,
        retiming,
    }
}

// The largest of a table's first numbers.
pub fn largest(table: &[u8; 64], count: u8) -> u8
    requires { count ≤ 64 }
    ensures { result ≡ most_of table.now count }
{
    table[..count as usize].iter().copied().fold(0, u8::max)
}
