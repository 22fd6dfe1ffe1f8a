// Bytes copied to the front of others.
ghost use Rattle.std.specs.Prelude.{◌≡◌, ◌≤◌, length, take};
ghost use Rattle.format.specs.Buffer.{written};

// The first `n` bytes of `from` stand first in `to`.
pub fn copy_front(from: &[u8], to: &mut [u8], n: usize)
    requires { (n ≤ length from.now) × (n ≤ length to.old) }
    ensures { to.new ≡ written (take n from.now) to.old }
{
    // Not `copy_from_slice`, whose raw pointers may overlap for all that the compiler knows: it then calls `memmove`.
    for i in 0..n {
        to[i] = from[i];
    }
}
