// A record's bytes and a place among them in one struct, and thin functions over it; the work is left to functions on a
// plain slice and a number.
#![tactic(auto)]

ghost use Rattle.std.specs.Prelude.{◌≡◌, ◌<◌, length};
ghost use Rattle.thin.specs.Places.{byte_at};

#[derive(Clone, Copy)]
struct Reader<'a> {
    src: &'a [u8],
    at: usize,
}

// The byte at a place.
fn byte_at(s: &[u8], at: usize) -> u8
    requires { at < length s.now }
    ensures { result ≡ byte_at s.now at }
{
    s[at]
}

// A reader at the first byte.
fn new<'a>(src: &'a [u8]) -> Reader<'a>
    ensures { (result.src ≡ src.entry) × (result.at ≡ 0) }
{
    Reader { src, at: 0 }
}

// The same bytes at another place.
fn moved<'a>(r: Reader<'a>, at: usize) -> Reader<'a>
    ensures { (result.src ≡ r.entry.src) × (result.at ≡ at) }
{
    Reader { src: r.src, at }
}

// The byte at the place.
fn byte<'a>(r: Reader<'a>) -> u8
    requires { r.at < length r.src.now }
    ensures { result ≡ byte_at r.entry.src.now r.entry.at }
{
    byte_at(r.src, r.at)
}

// The byte at a place of a slice, by a reader: its contract says nothing of a reader, so whoever calls it needs no walk.
pub fn byte_from(s: &[u8], at: usize) -> u8
    requires { at < length s.now }
    ensures { result ≡ byte_at s.now at }
{
    byte(moved(new(s), at))
}
