// The words of the command line: the commands that they name, and decimal numbers.
#![tactic(auto)]

ghost use Rattle.std.specs.Prelude.{◌≡◌};
ghost use Rattle.std.specs.Str.{bytes_eq};
ghost use Rattle.commands.specs.Numbers.{longer_by, number_in};
ghost use Rattle.commands.specs.Commands.{rewriting_of, command_of};

// What a word names.
#[derive(Clone, Copy)]
pub enum Command {
    Judge,
    Floor,
    Fit,
    First,
    Rotate,
    Search,
    Listing,
    Run,
    Plain,
    Table,
    Help,
}

// Whether two words are the same.
fn same(a: &[u8], b: &[u8]) -> bool
    ensures { result ≡ bytes_eq a.now b.now }
{
    a == b
}

// The command that a word names, of those that write a record.
#[tactic(auto, unfolding(crate::specs::Commands::rewriting_of, lists::specs::Pick::pick))]
fn rewriting(word: &[u8]) -> Option<Command>
    ensures { result ≡ rewriting_of word.now }
{
    if same(word, b"fit") {
        return Some(Command::Fit);
    }
    if same(word, b"first") {
        return Some(Command::First);
    }
    if same(word, b"rotate") {
        return Some(Command::Rotate);
    }
    if same(word, b"search") {
        return Some(Command::Search);
    }
    None
}

// The command that a word names.
#[tactic(auto, unfolding(crate::specs::Commands::command_of, lists::specs::Pick::pick))]
pub fn command_of(word: &[u8]) -> Option<Command>
    ensures { result ≡ command_of word.now }
{
    if same(word, b"judge") {
        return Some(Command::Judge);
    }
    if same(word, b"floor") {
        return Some(Command::Floor);
    }
    if same(word, b"list") {
        return Some(Command::Listing);
    }
    if same(word, b"table") {
        return Some(Command::Table);
    }
    if same(word, b"run") {
        return Some(Command::Run);
    }
    if same(word, b"plain") {
        return Some(Command::Plain);
    }
    if same(word, b"help") {
        return Some(Command::Help);
    }
    rewriting(word)
}

// A number with one digit more; none where the byte is no digit or the number would be above 65535.
#[tactic(auto, unfolding(crate::specs::Numbers::longer_by, lists::specs::Pick::pick))]
fn longer(value: u16, byte: u8) -> Option<u16>
    ensures { result ≡ longer_by value byte }
{
    let digit = match byte {
        b'0'..=b'9' => byte - b'0',
        _ => return None,
    };
    value.checked_mul(10)?.checked_add(digit as u16)
}

// The number that a word is in decimal.
pub fn number_of(word: &[u8]) -> Option<u16>
    ensures { result ≡ number_in word.now }
{
    if word.is_empty() {
        return None;
    }
    let mut value: u16 = 0;
    for byte in word {
        value = longer(value, *byte)?;
    }
    Some(value)
}
