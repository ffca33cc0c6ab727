// The edges that share a key, their tail or their head, as links: a walk over them meets no other edge.
#![tactic(auto)]

ghost use Rattle.std.specs.Prelude.{◌≡◌, ℕ, ◌≤◌, ◌<◌, length, get_or};
ghost use Rattle.links.specs.Chains.{Linked};

// The edges of each key, in edge order: the first with a key, and after an edge the next with the same key.
// The number of edges stands where there is no such edge.
#[derive(Clone, Copy)]
pub struct Links {
    pub first: [u16; 64],
    pub next: [u16; 256],
}

// Links over the edges with these keys, from the last edge down, so that each finds the one after it: E steps.
pub fn links_of(keys: &[u8; 256], edges: u16) -> Links
    requires { (edges ≤ 256) × ((e : ℕ) → e < edges → get_or keys.now e 0 < 64) }
    ensures { Linked (λ e. get_or keys.now e 0) edges result.first result.next }
{
    let mut first = [edges; 64];
    let mut next = [edges; 256];
    for e in (0..edges as usize).rev() {
        let key = keys[e] as usize;
        next[e] = first[key];
        first[key] = e as u16;
    }
    Links { first, next }
}
