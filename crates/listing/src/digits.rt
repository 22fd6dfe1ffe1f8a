// Bytes as digits, appended to what stands first in a buffer: `at` bytes stand there before, and the number that is given stands there after.
ghost use Rattle.std.specs.Prelude.{◌≡◌, [], ◌∷◌, ◌+◌, ◌*◌, ◌≤◌, ◌<◌, length};
ghost use Rattle.sheet.specs.Text.{base, LF};
ghost use Rattle.listing.specs.Listing.{digit_byte, digits, printed};
ghost use Rattle.listing.specs.ForContracts.Appended.{Appended};

use format::byte::LF;

const BASE: u8 = 16;

fn digit(n: u8) -> u8
    requires { n < base }
    ensures { result ≡ digit_byte n }
{
    if n < 10 {
        return b'0' + n;
    }
    b'a' - 10 + n
}

pub fn put_byte(byte: u8, out: &mut [u8], at: usize) -> usize
    requires { at + 2 ≤ length out.old }
    ensures { Appended out.old at (digits (byte ∷ [])) out.new result }
{
    out[at] = digit(byte / BASE);
    out[at + 1] = digit(byte % BASE);
    at + 2
}

pub fn put_bytes(bytes: &[u8], out: &mut [u8], at: usize) -> usize
    requires { at + 2 * length bytes.now ≤ length out.old }
    ensures { Appended out.old at (digits bytes.now) out.new result }
{
    let mut to = at;
    for byte in bytes {
        to = put_byte(*byte, out, to);
    }
    to
}

// "LF after each"
pub fn put_line_feed(out: &mut [u8], at: usize) -> usize
    requires { at + 1 ≤ length out.old }
    ensures { Appended out.old at (LF ∷ []) out.new result }
{
    out[at] = LF;
    at + 1
}

// A frame, or its last bytes.
pub fn put_frame(bytes: &[u8], out: &mut [u8], at: usize) -> usize
    requires { at + 2 * length bytes.now + 1 ≤ length out.old }
    ensures { Appended out.old at (printed (bytes.now ∷ [])) out.new result }
{
    let end = put_bytes(bytes, out, at);
    put_line_feed(out, end)
}
