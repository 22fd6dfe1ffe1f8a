// Lent buffers.
ghost use Rattle.std.specs.Prelude.{◌≡◌, ◌≤◌, length};
ghost use Rattle.outcomes.specs.Buffer.{filled};

// The first `n` bytes are `b`, the rest as before.
pub fn fill(buffer: &mut [u8], n: usize, b: u8)
    requires { n ≤ length buffer.old }
    ensures { buffer.new ≡ filled n b buffer.old }
{
    buffer[..n].fill(b);
}
