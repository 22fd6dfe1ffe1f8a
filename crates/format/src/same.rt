// Bytes compared with others.
ghost use Rattle.std.specs.Prelude.{◌≡◌, ◌↔◌, true, ◌+◌, ◌≤◌, length};
ghost use Rattle.format.specs.Lists.{SameBytes};

// Whether the `n` bytes from `a` on are the same as those from `b` on.
pub fn same_bytes(bytes: &[u8], a: usize, b: usize, n: usize) -> bool
    requires { (a + n ≤ length bytes.now) × (b + n ≤ length bytes.now) }
    ensures { (result ≡ true) ↔ SameBytes bytes.now a b n }
{
    bytes[a..a + n] == bytes[b..b + n]
}
