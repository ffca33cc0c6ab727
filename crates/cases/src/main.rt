// Asks the linked functions what standard input holds, request after request, and prints each answer.
// A request is 14 bytes: what to ask, an unused byte, four numbers, the room lent and the record's length,
// 16 bits each, the lowest byte first; then the record. The buffer lent is filled with 238, so that a byte
// written where none should be is seen.
// Runs and plain loops (8, 9) take K and a seed from the first two numbers; the third is the length of the start
// table, the fourth that of the finish steps, the room that of the values. Place 31 of the start table holds 7
// and each further place the seed more, modulo 2^32.
#![tactic(auto)]

ghost use Rattle.std.specs.Prelude.{◌≡◌, ◌<◌, length};

use std::io;

// The number at a place of a request's head.
fn two(head: &[u8; 14], at: usize) -> u16
    requires { at < 13 }
{
    u16::from_le_bytes([head[at], head[at + 1]])
}

fn print_number(rt: &impl Print, number: u32) -> io::Result<()> {
    print!(rt; "{number} ")
}

// The number, the details, the count, and the cycle's edges.
fn print_answer(rt: &impl Print, answer: &[u32; 69]) -> io::Result<()> {
    let count = answer[4] as usize;
    for number in answer.iter().take(5 + count) {
        print_number(rt, *number)?;
    }
    Ok(())
}

fn print_byte(rt: &impl Print, byte: u8) -> io::Result<()> {
    print!(rt; "{byte:02x}")
}

fn print_bytes(rt: &impl Print, bytes: &[u8]) -> io::Result<()> {
    for byte in bytes {
        print_byte(rt, *byte)?;
    }
    Ok(())
}

// A rotation's size, or a search's count and size, are the first numbers. What is refused.
// One arm for one export: C names no function by a value.
fn ask(
    what: u8,
    first: u16,
    second: u16,
    record: &[u8],
    out: &mut [u8],
    answer: &mut [u32; 69],
) -> u32 {
    match what {
        0 => rsk_c::rsk_rewrite(record, out, answer),
        1 => rsk_c::rsk_judge(record, answer),
        2 => rsk_c::rsk_fit(record, out, answer),
        3 => rsk_c::rsk_floor(record, answer),
        4 => rsk_c::rsk_list(record, out, answer),
        5 => rsk_c::rsk_first(record, out, answer),
        6 => rsk_c::rsk_rotate(record, first, out, answer),
        7 => rsk_c::rsk_search(record, first, second, out, answer),
        _ => 0,
    }
}

// The answer and the buffer after it.
fn tell(
    rt: &impl Print,
    what: u8,
    first: u16,
    second: u16,
    record: &[u8],
    out: &mut [u8],
) -> io::Result<()> {
    let mut answer = [0u32; 69];
    ask(what, first, second, record, out, &mut answer);
    print_answer(rt, &answer)?;
    print_bytes(rt, out)?;
    rt.write_all(b"\n")
}

fn empty() -> [u8; 2048]
    ensures { length result ≡ 2048 }
{
    [0; 2048]
}

fn marked() -> [u8; 8192]
    ensures { length result ≡ 8192 }
{
    [238; 8192]
}

// A request that lends bytes; whether there is that room.
fn lend_bytes(rt: &impl Print, head: &[u8; 14], record: &[u8]) -> io::Result<bool> {
    let first = two(head, 2);
    let second = two(head, 4);
    let room = two(head, 10) as usize;
    if 8192 < room {
        return Ok(false);
    }
    let mut out = marked();
    tell(rt, head[0], first, second, record, &mut out[..room])?;
    Ok(true)
}

// Up to 64 words one by one, more as one number.
fn print_words(rt: &impl Print, words: &[u32]) -> io::Result<()> {
    if words.len() <= 64 {
        print_each(rt, words)
    } else {
        print_number(rt, checksum(words))
    }
}

fn print_each(rt: &impl Print, words: &[u32]) -> io::Result<()> {
    for word in words {
        print_number(rt, *word)?;
    }
    Ok(())
}

fn checksum(words: &[u32]) -> u32 {
    words.iter().fold(0, |sum: u32, word| sum.wrapping_mul(31).wrapping_add(*word))
}

// The word at place 0 with which place 31 is 7.
fn beginning(seed: u16) -> u32 {
    7u32.wrapping_sub(31 * u32::from(seed))
}

fn fill(seed: u16, starts: &mut [u32]) {
    let mut word = beginning(seed);
    for start in starts.iter_mut() {
        *start = word;
        word = word.wrapping_add(u32::from(seed));
    }
}

fn start_table() -> [u32; 960]
    ensures { length result ≡ 960 }
{
    [0; 960]
}

fn marked_words() -> [u32; 65536]
    ensures { length result ≡ 65536 }
{
    [238; 65536]
}

fn tell_run<'a>(
    rt: &impl Print,
    k: u16,
    record: &'a [u8],
    starts: &'a [u32],
    values: &mut [u32],
    finish: &mut [u32],
) -> io::Result<()> {
    let mut answer = [0u32; 69];
    rsk_c::rsk_run(record, k, starts, values, finish, &mut answer);
    print_answer(rt, &answer)?;
    print_words(rt, values)?;
    print_words(rt, finish)?;
    rt.write_all(b"\n")
}

fn tell_plain(
    rt: &impl Print,
    k: u16,
    record: &[u8],
    starts: &[u32],
    values: &mut [u32],
) -> io::Result<()> {
    let mut answer = [0u32; 69];
    rsk_c::rsk_plain(record, k, starts, values, &mut answer);
    print_answer(rt, &answer)?;
    print_words(rt, values)?;
    rt.write_all(b"\n")
}

fn lend_values<'a>(
    rt: &impl Print,
    head: &[u8; 14],
    record: &'a [u8],
    starts: &'a [u32],
) -> io::Result<()> {
    let k = two(head, 2);
    let finishes = two(head, 8) as usize;
    let room = two(head, 10) as usize;
    let mut values = marked_words();
    if head[0] == 8 {
        let mut finish = marked_words();
        tell_run(
            rt,
            k,
            record,
            starts,
            &mut values[..room],
            &mut finish[..finishes],
        )
    } else {
        tell_plain(rt, k, record, starts, &mut values[..room])
    }
}

// A request that lends words; whether there is that room.
fn lend_words(rt: &impl Print, head: &[u8; 14], record: &[u8]) -> io::Result<bool> {
    let seed = two(head, 4);
    let places = two(head, 6) as usize;
    if 960 < places {
        return Ok(false);
    }
    let mut starts = start_table();
    fill(seed, &mut starts[..places]);
    lend_values(rt, head, record, &starts[..places])?;
    Ok(true)
}

fn lend(rt: &impl Print, head: &[u8; 14], record: &[u8]) -> io::Result<bool> {
    if head[0] < 8 {
        lend_bytes(rt, head, record)
    } else {
        lend_words(rt, head, record)
    }
}

// One request; whether there was one.
fn one(rt: &HostRuntime) -> io::Result<bool> {
    let mut input = rt.stdin();
    let mut head = [0u8; 14];
    let got = streams::read_full(&mut input, &mut head)?;
    let length = two(&head, 12) as usize;
    if got < 14 || 2048 < length {
        return Ok(false);
    }
    let mut bytes = empty();
    streams::read_full(&mut input, &mut bytes[..length])?;
    lend(rt, &head, &bytes[..length])
}

// A proved loop has to end, and nothing says that the input does.
fn main(rt: HostRuntime) -> io::Result<()> {
    for _ in 0..u64::MAX {
        if !one(&rt)? {
            break;
        }
    }
    Ok(())
}
