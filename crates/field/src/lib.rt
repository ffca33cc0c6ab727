// One field of a record, taken from the lent bytes at its offset.
#![tactic(auto)]

ghost use Rattle.std.specs.Prelude.{◌≡◌, ◌+◌, ◌≤◌, ◌<◌, length};
ghost use Rattle.field.specs.Number.{number_at};
ghost use Rattle.field.specs.Taking.{wrong_at, Took};

use answer::Refusal;

// What a field belongs to: which refusal it gets where it is out of range.
#[derive(Clone, Copy)]
pub enum Kind {
    Mark,
    Version,
    Count,
    Machine,
    Node,
    Edge,
    Start,
    Retiming,
}

// The number in the `width` bytes from `at` on, the lowest byte first. Each byte is read by the thin reader.
pub fn number_at(s: &[u8], at: usize, width: usize) -> u32
    requires { (at + width ≤ length s.now) × (width ≤ 4) }
    ensures { result ≡ number_at width s.now at }
{
    let mut value: u32 = 0;
    for place in (0..width).rev() {
        let byte = thin::byte_from(s, at + place) as u32;
        value = value * 256 + byte;
    }
    value
}

// The refusal of a field that is out of range.
pub fn wrong_at(kind: Kind, at: u32) -> Refusal
    ensures { Some result ≡ wrong_at kind at }
{
    match kind {
        Kind::Mark => Refusal::Mark(at),
        Kind::Version => Refusal::Version(at),
        Kind::Count => Refusal::Count(at),
        Kind::Machine => Refusal::Machine(at),
        Kind::Node => Refusal::Node(at),
        Kind::Edge => Refusal::Edge(at),
        Kind::Start => Refusal::Start(at),
        Kind::Retiming => Refusal::Retiming(at),
    }
}

// The field at an offset: `width` bytes that hold a number from `low` to `high`.
#[tactic(auto, using(std::proofs::lemmas::Grind::common_steps, std::proofs::lemmas::Bool::Decides::nat_tests), unfolding(crate::specs::Taking::taken, answer::specs::Refused::fine, lists::specs::Pick::pick))]
pub fn take(
    s: &[u8],
    at: usize,
    width: usize,
    low: u32,
    high: u32,
    kind: Kind,
) -> Result<u32, Refusal>
    requires { (at ≤ 60000) × (width ≤ 4) }
    ensures { Took s.now at width low high kind result }
{
    if s.len() < at + width {
        return Err(Refusal::Short(at as u32));
    }
    let value = number_at(s, at, width);
    if !(low..=high).contains(&value) {
        return Err(wrong_at(kind, at as u32));
    }
    Ok(value)
}
