// What each command does with the record at standard input.
ghost use Rattle.std.specs.Prelude.{◌≡◌, ◌≤◌, length};

use crate::{tell, word_at};
use std::fs::File;
use std::io;

// What writes a record, with its numbers.
#[derive(Clone, Copy)]
pub(crate) enum Rewriting {
    Fit,
    First,
    Rotate(u16),
    Search(u16, u16),
}

// What repeats the loop.
#[derive(Clone, Copy)]
pub(crate) enum Repeating {
    Run,
    Plain,
}

pub(crate) fn judge(rt: &HostRuntime) -> io::Result<()> {
    let mut bytes = [0u8; 4096];
    let length = streams::read_full(&mut rt.stdin(), &mut bytes)?;
    let mut answer = [0u32; 69];
    if rsk_c::rsk_judge(&bytes[..length], &mut answer) != 0 {
        return tell::refusal(rt, &bytes[..length], &answer);
    }
    rt.write_all(b"legal\n")
}

pub(crate) fn floor(rt: &HostRuntime) -> io::Result<()> {
    let mut bytes = [0u8; 4096];
    let length = streams::read_full(&mut rt.stdin(), &mut bytes)?;
    let mut answer = [0u32; 69];
    if rsk_c::rsk_floor(&bytes[..length], &mut answer) != 0 {
        return tell::refusal(rt, &bytes[..length], &answer);
    }
    tell::print_floor(rt, &bytes[..length], &answer)
}

// What the judge refuses is no listing here.
pub(crate) fn list(rt: &HostRuntime) -> io::Result<()> {
    let mut bytes = [0u8; 4096];
    let length = streams::read_full(&mut rt.stdin(), &mut bytes)?;
    let mut answer = [0u32; 69];
    if rsk_c::rsk_judge(&bytes[..length], &mut answer) != 0 {
        return tell::refusal(rt, &bytes[..length], &answer);
    }
    let mut out = [0u8; 4096];
    rsk_c::rsk_list(&bytes[..length], &mut out, &mut answer);
    let size = tell::size_in(answer[1], &out);
    rt.write_all(&out[..size])
}

// Room for the table of what the judge accepts, at most 106,347 bytes (`table-size`, drawing/specs/Size): 512 rows
// of 207 (6 for the step, for each of four classes 2 and six for each of eight units, the line's end), and above
// them the heads, as long as a row, and four lines of 39.
fn page() -> [u8; 131072]
    ensures { length result ≡ 131072 }
{
    [0; 131072]
}

fn draw(rt: &impl Print, record: &[u8]) -> io::Result<()> {
    let mut out = page();
    let drawn = drawing::draw(record, &mut out).unwrap_or(0);
    let size = tell::size_in(drawn, &out);
    rt.write_all(&out[..size])
}

pub(crate) fn table(rt: &HostRuntime) -> io::Result<()> {
    let mut bytes = [0u8; 4096];
    let length = streams::read_full(&mut rt.stdin(), &mut bytes)?;
    let mut answer = [0u32; 69];
    if rsk_c::rsk_judge(&bytes[..length], &mut answer) != 0 {
        return tell::refusal(rt, &bytes[..length], &answer);
    }
    draw(rt, &bytes[..length])?;
    let steps = reader::read(&bytes[..length]).map_or(0, |form| form.header.length);
    rsk_c::rsk_floor(&bytes[..length], &mut answer);
    tell::print_floor(rt, &bytes[..length], &answer)?;
    if u32::from(steps) == answer[1] {
        return rt.write_all(b"shortest\n");
    }
    rt.write_all(b"open\n")
}

// A record written into `out`; what is refused. One arm for one export: C names no function by a value.
fn ask(rewriting: Rewriting, record: &[u8], out: &mut [u8], answer: &mut [u32; 69]) -> u32 {
    match rewriting {
        Rewriting::Fit => rsk_c::rsk_fit(record, out, answer),
        Rewriting::First => rsk_c::rsk_first(record, out, answer),
        Rewriting::Rotate(size) => rsk_c::rsk_rotate(record, size, out, answer),
        Rewriting::Search(count, size) => rsk_c::rsk_search(record, count, size, out, answer),
    }
}

pub(crate) fn rewrite(rt: &HostRuntime, rewriting: Rewriting) -> io::Result<()> {
    let mut bytes = [0u8; 4096];
    let length = streams::read_full(&mut rt.stdin(), &mut bytes)?;
    let mut out = [0u8; 4096];
    let mut answer = [0u32; 69];
    if ask(rewriting, &bytes[..length], &mut out, &mut answer) != 0 {
        return tell::refusal(rt, &bytes[..length], &answer);
    }
    let size = tell::size_in(answer[1], &out);
    rt.write_all(&out[..size])
}

// Room for 262,144 values.
fn room() -> [u32; 262144]
    ensures { length result ≡ 262144 }
{
    [0; 262144]
}

// The start values in a file's bytes, lowest byte first; 0 past them.
fn starts_of(bytes: &[u8]) -> [u32; 960]
    ensures { length result ≡ 960 }
{
    let mut starts = [0u32; 960];
    let (numbers, _) = bytes.as_chunks::<4>();
    for (start, number) in starts.iter_mut().zip(numbers) {
        *start = u32::from_le_bytes(*number);
    }
    starts
}

// The values of the last iteration, if there is one.
fn print_last(rt: &impl Print, values: &[u32], iterations: u16, nodes: u8) -> io::Result<()> {
    let Some(last) = iterations.checked_sub(1) else {
        return Ok(());
    };
    let from = usize::from(last) * usize::from(nodes);
    for (node, value) in (0..nodes).zip(values.iter().skip(from)) {
        tell::print_field(rt, b"node ", u32::from(node))?;
        tell::print_field(rt, b": ", *value)?;
        rt.write_all(b"\n")?;
    }
    Ok(())
}

// The number of run steps, which the plain loop has not.
fn print_steps(rt: &impl Print, repeating: Repeating, steps: u32) -> io::Result<()> {
    match repeating {
        Repeating::Run => {
            tell::print_field(rt, b"run steps ", steps)?;
            rt.write_all(b"\n")
        }
        Repeating::Plain => Ok(()),
    }
}

// The run or the plain loop; what it refuses.
fn ask_repeat<'a>(
    repeating: Repeating,
    record: &'a [u8],
    k: u16,
    starts: &'a [u32],
    values: &mut [u32],
    finish: &mut [u32],
    answer: &mut [u32; 69],
) -> u32 {
    match repeating {
        Repeating::Run => rsk_c::rsk_run(record, k, starts, values, finish, answer),
        Repeating::Plain => rsk_c::rsk_plain(record, k, starts, values, answer),
    }
}

// The record run, or looped over plainly, from start values.
fn repeat_from(rt: &HostRuntime, repeating: Repeating, k: u16, starts: &[u32]) -> io::Result<()> {
    let mut bytes = [0u8; 4096];
    let length = streams::read_full(&mut rt.stdin(), &mut bytes)?;
    let mut values = room();
    let mut finish = room();
    let mut answer = [0u32; 69];
    let refused = ask_repeat(
        repeating,
        &bytes[..length],
        k,
        starts,
        &mut values,
        &mut finish,
        &mut answer,
    );
    if refused != 0 {
        return tell::refusal(rt, &bytes[..length], &answer);
    }
    let nodes = reader::read(&bytes[..length]).map_or(0, |form| form.header.nodes);
    print_steps(rt, repeating, answer[1])?;
    print_last(rt, &values, k, nodes)
}

// From the start values of the file that is named after K.
fn repeat_named(rt: &HostRuntime, repeating: Repeating, k: u16, file: &mut File) -> io::Result<()> {
    let mut bytes = [0u8; 4096];
    let length = streams::read_full(file, &mut bytes)?;
    let starts = starts_of(&bytes[..length]);
    let count = (length / 4).min(960);
    repeat_from(rt, repeating, k, &starts[..count])
}

// The file of a name.
fn open_read(rt: &HostRuntime, name: &[u8]) -> io::Result<File> {
    let path = str::from_utf8(name).map_err(|_| io::Error::new(
        io::ErrorKind::InvalidInput,
        "the name is not UTF-8",
    ))?;
    File::open(rt, path)
}

// The start values are all 0, or a file's.
pub(crate) fn repeat(
    rt: &HostRuntime,
    repeating: Repeating,
    k: u16,
    named: bool,
) -> io::Result<()> {
    if !named {
        return repeat_from(rt, repeating, k, &[0; 960]);
    }
    let mut name = [0u8; 4096];
    let long = word_at(rt, 3, &mut name);
    match open_read(rt, &name[..long]) {
        Ok(mut file) => repeat_named(rt, repeating, k, &mut file),
        Err(error) => tell::failed(rt, &name[..long], &error),
    }
}
