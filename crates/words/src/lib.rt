// Refusals as lines that a person reads.
#![tactic(auto)]

ghost use Rattle.std.specs.Prelude.{◌≡◌, [], ◌∷◌, ◌++◌, ◌+◌, ◌-◌, ◌≤◌, ◌<◌, min, length, get_or};
ghost use Rattle.laid.specs.Laid.{Laid};
ghost use Rattle.text.specs.Page.{Puts};
ghost use Rattle.words.specs.Numbers.{place_text, high_text, low_text, numeral};
ghost use Rattle.words.specs.Words.{room_word, room_end};
ghost use Rattle.words.specs.Refusals.{offset_text, one_text, two_text, three_text, edges_text, cycle_text, shape_texts, rule_texts, reason_text, refusal_line};

use text::Page;

// The digit at a place, which is a power of 10, unless it leads with 0.
fn put_place(page: &mut Page, number: u32, place: u32)
    requires { (page.old.at ≤ 900000) × (1 ≤ place) }
    ensures { (page.new.at ≤ page.old.at + 1) × Puts page.old page.new (place_text number place) }
{
    if number < place {
        return;
    }
    page.byte(b'0' + (number / place % 10) as u8);
}

// The places of a number from 100,000 up.
fn put_high(page: &mut Page, number: u32)
    requires { page.old.at ≤ 800000 }
    ensures { (page.new.at ≤ page.old.at + 5) × Puts page.old page.new (high_text number) }
{
    put_place(page, number, 1000000000);
    put_place(page, number, 100000000);
    put_place(page, number, 10000000);
    put_place(page, number, 1000000);
    put_place(page, number, 100000);
}

// The places of a number below 100,000.
fn put_low(page: &mut Page, number: u32)
    requires { page.old.at ≤ 800000 }
    ensures { (page.new.at ≤ page.old.at + 5) × Puts page.old page.new (low_text number) }
{
    put_place(page, number, 10000);
    put_place(page, number, 1000);
    put_place(page, number, 100);
    put_place(page, number, 10);
    page.byte(b'0' + (number % 10) as u8);
}

// A number in decimal.
fn put_decimal(page: &mut Page, number: u32)
    requires { page.old.at ≤ 700000 }
    ensures { (page.new.at ≤ page.old.at + 10) × Puts page.old page.new (numeral number) }
{
    put_high(page, number);
    put_low(page, number);
}

// A word with a number after it.
fn put_one(page: &mut Page, word: &[u8], number: u32)
    requires { page.old.at + length word.now ≤ 600000 }
    ensures { (page.new.at ≤ page.old.at + length word.now + 10) × Puts page.old page.new (one_text word.now number) }
{
    page.word(word);
    put_decimal(page, number);
}

// A word with a number after it, twice.
fn put_two(page: &mut Page, first: &[u8], a: u32, second: &[u8], b: u32)
    requires { page.old.at + length first.now + length second.now ≤ 500000 }
    ensures { (page.new.at ≤ page.old.at + length first.now + length second.now + 20) × Puts page.old page.new (two_text first.now a second.now b) }
{
    put_one(page, first, a);
    put_one(page, second, b);
}

// A word with a number after it, three times.
fn put_three(page: &mut Page, first: &[u8], a: u32, second: &[u8], b: u32, third: &[u8], c: u32)
    requires { page.old.at + length first.now + length second.now + length third.now ≤ 400000 }
    ensures { (page.new.at ≤ page.old.at + length first.now + length second.now + length third.now + 30) × Puts page.old page.new (three_text first.now a second.now b third.now c) }
{
    put_two(page, first, a, second, b);
    put_one(page, third, c);
}

// A name, and the offset of a field.
fn put_offset(page: &mut Page, name: &[u8], offset: u32)
    requires { page.old.at + length name.now ≤ 400000 }
    ensures { (page.new.at ≤ page.old.at + length name.now + 26) × Puts page.old page.new (offset_text name.now offset) }
{
    page.word(name);
    put_one(page, b": field at byte ", offset);
}

// A word, a number, and a word.
fn put_amid(page: &mut Page, before: &[u8], number: u32, after: &[u8])
    requires { page.old.at + length before.now + length after.now ≤ 400000 }
    ensures { (page.new.at ≤ page.old.at + length before.now + length after.now + 10) × Puts page.old page.new (one_text before.now number ++ after.now) }
{
    put_one(page, before, number);
    page.word(after);
}

// A space and an edge's number.
fn put_edge(page: &mut Page, edge: u32)
    requires { page.old.at ≤ 500000 }
    ensures { (page.new.at ≤ page.old.at + 11) × Puts page.old page.new (32 ∷ numeral edge) }
{
    page.byte(b' ');
    put_decimal(page, edge);
}

// The edges of an answer's cycle.
fn put_edges(page: &mut Page, answer: &[u32; 69])
    requires { page.old.at ≤ 400000 }
    ensures { (page.new.at ≤ page.old.at + 704) × Puts page.old page.new (edges_text answer.now) }
{
    let count = answer[4].min(64) as usize;
    for i in 0..count {
        put_edge(page, answer[5 + i]);
    }
}

// A word, and the edges of an answer's cycle.
fn put_cycle(page: &mut Page, word: &[u8], answer: &[u32; 69])
    requires { page.old.at + length word.now ≤ 300000 }
    ensures { (page.new.at ≤ page.old.at + length word.now + 704) × Puts page.old page.new (cycle_text word.now answer.now) }
{
    page.word(word);
    put_edges(page, answer);
}

// The refusals of a record's fields, by number: the name and the offset.
fn put_shape(page: &mut Page, number: u32, offset: u32)
    requires { (page.old.at ≤ 1000) × (number < 11) }
    ensures { (page.new.at ≤ page.old.at + 1000) × Puts page.old page.new (get_or (shape_texts offset) number []) }
{
    match number {
        1 => put_offset(page, b"Short", offset),
        2 => put_offset(page, b"Mark", offset),
        3 => put_offset(page, b"Version", offset),
        4 => put_offset(page, b"Count", offset),
        5 => put_offset(page, b"Machine", offset),
        6 => put_offset(page, b"Node", offset),
        7 => put_offset(page, b"Edge", offset),
        8 => put_offset(page, b"Start", offset),
        9 => put_offset(page, b"Retiming", offset),
        10 => put_one(page, b"Tail: bytes left from byte ", offset),
        _ => {}
    }
}

// The refusals of a schedule, 11 to 15: the name, and the details by their meaning.
fn put_rule(page: &mut Page, number: u32, answer: &[u32; 69], from: u32, to: u32)
    requires { (page.old.at ≤ 1000) × (11 ≤ number) × (number < 16) }
    ensures { (page.new.at ≤ page.old.at + 1000) × Puts page.old page.new (get_or (rule_texts answer.now from to) (number - 11) []) }
{
    let a = answer[1];
    match number {
        11 => page.word(b"Bare: no schedule"),
        12 => put_cycle(page, b"Knot: cycle of edges", answer),
        13 => put_three(
            page,
            b"Dependence: edge ",
            a,
            b", from node ",
            from,
            b" to node ",
            to,
        ),
        14 => put_cycle(page, b"NoRetiming: cycle of edges", answer),
        _ => put_two(page, b"Units: step ", a, b", class ", answer[2]),
    }
}

// Why a buffer is too short.
fn put_room(page: &mut Page, buffer: u32)
    requires { page.old.at ≤ 1000 }
    ensures { (page.new.at ≤ page.old.at + 1000) × Puts page.old page.new (one_text room_word buffer ++ room_end) }
{
    put_amid(
        page,
        b"Room: buffer ",
        buffer,
        b" is too short; 0 takes 15 start values for each node, 1 and 2 hold 262144 values, iterations times nodes",
    )
}

// The refusals of a rotation and of a run, from 16 on: the name, and the details by their meaning.
fn put_limit(page: &mut Page, number: u32, answer: &[u32; 69], from: u32, to: u32)
    requires { (page.old.at ≤ 1000) × (16 ≤ number) }
    ensures { (page.new.at ≤ page.old.at + 1000) × Puts page.old page.new (get_or (rule_texts answer.now from to) (number - 11) []) }
{
    let a = answer[1];
    let b = answer[2];
    let c = answer[3];
    match number {
        16 => put_amid(page, b"Size: ", a, b" steps"),
        17 => page.word(b"Long: more than 512 steps"),
        18 => put_room(page, a),
        19 => put_three(page, b"Early: run step ", a, b", node ", b, b", edge ", c),
        20 => put_three(page, b"Busy: run step ", a, b", node ", b, b", class ", c),
        _ => {}
    }
}

// The name and the details of the refusal that an answer holds.
fn put_reason(page: &mut Page, number: u32, answer: &[u32; 69], from: u32, to: u32)
    requires { (page.old.at ≤ 1000) × (number ≡ get_or answer.now 0 0) }
    ensures { (page.new.at ≤ page.old.at + 1000) × Puts page.old page.new (reason_text answer.now from to) }
{
    if number < 11 {
        return put_shape(page, number, answer[1]);
    }
    if number < 16 {
        return put_rule(page, number, answer, from, to);
    }
    put_limit(page, number, answer, from, to);
}

// The line of the refusal that an answer holds, from the front of `out` on, as far as it goes; the line's
// size. `from` and `to` are the nodes of the edge that a Dependence names.
pub fn put_refusal(out: &mut [u8], answer: &[u32; 69], from: u32, to: u32) -> usize
    ensures { (result ≤ 2000) × Laid out.old 0 (refusal_line answer.now from to) out.new result }
{
    let number = answer[0];
    let mut page = Page::new(out);
    put_one(&mut page, b"refused ", number);
    page.byte(b' ');
    put_reason(&mut page, number, answer, from, to);
    page.byte(b'\n');
    page.at
}
