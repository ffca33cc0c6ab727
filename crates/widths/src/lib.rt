// Numbers as wider ones.
#![tactic(auto)]

ghost use Rattle.std.specs.Prelude.{◌≡◌, ◌<◌};

// A byte as a u16; the bound spares each use a proof.
pub fn wide(x: u8) -> u16
    ensures { (result ≡ x) × (result < 256) }
{
    u16::from(x)
}
