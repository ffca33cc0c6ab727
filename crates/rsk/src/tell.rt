// What a person is told: usage, help, refusals and reasons.
ghost use Rattle.std.specs.Prelude.{◌≤◌, length, take, ◌≡◌};

use form::Form;
use std::io;

fn usage_to(to: &impl Print) -> io::Result<()> {
    to.write_all(b"usage: rsk COMMAND, with a record at standard input\n")?;
    to.write_all(b"  judge | floor | list | table | help\n")?;
    to.write_all(b"  fit | first | rotate Z | search COUNT SIZE\n")?;
    to.write_all(b"  run K [FILE] | plain K [FILE]\n")
}

pub(crate) fn usage(rt: &HostRuntime) -> io::Result<()> {
    usage_to(&rt.stderr())
}

// The usage, and what each command writes.
pub(crate) fn help(rt: &impl Print) -> io::Result<()> {
    usage_to(rt)?;
    rt.write_all(b"\nfit, first, rotate and search write a record; the others write text.\n")?;
    rt.write_all(b"Z, COUNT, SIZE and K are decimal numbers up to 65535.\n")?;
    rt.write_all(b"run and plain take K iterations and print the values of the last one.\n")?;
    rt.write_all(b"FILE has start values, 32 bits each, lowest byte first, 15 for each node;\n")?;
    rt.write_all(
        b"without it they are 0. K times the number of nodes is at most 262144, else 18 Room.\n",
    )?;
    rt.write_all(b"What is refused is told on standard error: the number, the name, the details.\n")
}

// How many bytes of a buffer a size names.
pub(crate) fn size_in(size: u32, out: &[u8]) -> usize
    ensures { (result ≤ length out.now) × (result ≡ length (take result out.now)) }
{
    (size as usize).min(out.len())
}

// The node at an edge's end; 0 where there is no such edge.
fn end_of(ends: &[u8; 256], edge: u32) -> u32 {
    ends.get(edge as usize).map_or(0, |node| u32::from(*node))
}

// The line of a refusal.
pub(crate) fn refusal(rt: &HostRuntime, record: &[u8], answer: &[u32; 69]) -> io::Result<()> {
    // what the reader refuses has no edge's ends
    let ends = |form: Form| (end_of(&form.from, answer[1]), end_of(&form.to, answer[1]));
    let (from, to) = reader::read(record).map_or((0, 0), ends);
    let mut text = [0u8; 4096];
    let size = words::put_refusal(&mut text, answer, from, to);
    let length = size_in(size as u32, &text);
    rt.stderr().write_all(&text[..length])
}

// The system's words for an error, without its number.
fn without_number(told: &str) -> &str {
    told.split_once(" (os error ")
        .map_or(told, |(words, _)| words)
}

// The line of a file that is not opened: its name, and why.
pub(crate) fn failed(rt: &HostRuntime, name: &[u8], error: &io::Error) -> io::Result<()> {
    let told = format!(in rt.alloc(); "{error}")?;
    let to = rt.stderr();
    to.write_all(name)?;
    to.write_all(b": ")?;
    to.write_all(without_number(told.as_str()).as_bytes())?;
    to.write_all(b"\n")
}

pub(crate) fn print_number(rt: &impl Print, number: u32) -> io::Result<()> {
    print!(rt; "{number}")
}

// A word and a number after it.
pub(crate) fn print_field(rt: &impl Print, word: &[u8], number: u32) -> io::Result<()> {
    rt.write_all(word)?;
    print_number(rt, number)
}

// The nodes of an answer's cycle, by the edges that leave them.
fn print_cycle(rt: &impl Print, ends: &[u8; 256], answer: &[u32; 69]) -> io::Result<()> {
    for edge in answer[5..].iter().take(answer[4] as usize) {
        print_field(rt, b" ", end_of(ends, *edge))?;
    }
    Ok(())
}

// A floor and its reason.
pub(crate) fn print_floor(rt: &impl Print, record: &[u8], answer: &[u32; 69]) -> io::Result<()> {
    print_field(rt, b"floor ", answer[1])?;
    match answer[2] {
        1 => rt.write_all(b", part a: the largest latency of a used class\n"),
        2 => {
            print_field(rt, b", part b: the units of class ", answer[3])?;
            rt.write_all(b"\n")
        }
        _ => {
            rt.write_all(b", part c: the cycle of nodes")?;
            if let Ok(form) = reader::read(record) {
                print_cycle(rt, &form.from, answer)?;
            }
            rt.write_all(b"\n")
        }
    }
}
