// The program: it reads a sheet from standard input and prints its listing. Everything but reading and writing is `pieces`.
#![tactic(auto)]

ghost use Rattle.std.specs.Prelude.{◌≤◌, length};

use cursor::place::{Cursor, Place, is_end};
use format::limits::Limits;
use pieces::next::next_piece;
use rules::opened::Opened;
use rules::rows::ROWS;
use rules::walks::BOUNDS;
use scanning::known::Known;
use std::io::{Read, Write};

// One byte more than a sheet may have, so that a longer input is refused as too long.
const INPUT: usize = Limits::TEXT + 1;

// Room for several frames of lines at once.
const OUT: usize = 65536;

// Reads until `buffer` is full, the input ends or a read fails, and returns how many bytes now stand at its start.
fn read_full<R: Read>(reader: &mut R, buffer: &mut [u8]) -> usize
    ensures { result ≤ length buffer.new }
{
    let mut done = 0;
    while done < buffer.len() {
        match reader.read(&mut buffer[done..]) {
            Ok(0) | Err(_) => return done,
            Ok(n) => done += n,
        }
    }
    done
}

// Prints piece after piece. An output that fails or is closed ends it.
fn print_listing<W: Write>(input: &[u8], writer: &mut W) {
    let mut equations = [0u8; ROWS];
    let mut lengths = [0u8; ROWS];
    let mut bounds = [0usize; BOUNDS];
    let mut table = [0u8; Limits::TABLE];
    let mut scratch = [0u8; Limits::SCRATCH];
    let mut out = [0u8; OUT];
    let opened = Opened {
        known: Known::nothing(),
        fits: false,
    };
    let mut cursor = Cursor {
        place: Place::Start,
        opened,
    };
    // No `while`: that the first piece is asked for at a place that is not the end is proved at the call.
    loop {
        let listed = next_piece(
            input,
            cursor,
            &mut equations,
            &mut lengths,
            &mut bounds,
            &mut table,
            &mut scratch,
            &mut out,
        );
        if writer.write_all(&out[..listed.bytes]).is_err() {
            return;
        }
        cursor = listed.next;
        if is_end(cursor.place) {
            return;
        }
    }
}

fn main(rt: HostRuntime) {
    let mut input = [0u8; INPUT];
    let n = read_full(&mut rt.stdin(), &mut input);
    print_listing(&input[..n], &mut rt.stdout());
}
