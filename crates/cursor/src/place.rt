// How far the listing has come.
ghost use Rattle.std.specs.Prelude.{◌≡◌, ◌↔◌, true};

use rules::opened::Opened;

// Where the listing goes on: nothing is printed yet; the table of a rule; a line of a rule's table, with its number from 0 and the number of lines; a task, with the
// steps of the runs before it; nothing is left.
#[derive(Clone, Copy)]
pub enum Place {
    Start,
    Table(usize),
    Line {
        rule: usize,
        line: usize,
        lines: usize,
    },
    Task {
        task: usize,
        steps: usize,
    },
    End,
}

// Whether nothing is left to print.
pub fn is_end(place: Place) -> bool
    ensures { (result ≡ true) ↔ (place ≡ Place.End) }
{
    matches!(place, Place::End)
}

// The place, and what is known of the sheet.
#[derive(Clone, Copy)]
pub struct Cursor {
    pub place: Place,
    pub opened: Opened,
}

// What comes next, and how many bytes stand in the buffer.
#[derive(Clone, Copy)]
pub struct Listed<Next> {
    pub next: Next,
    pub bytes: usize,
}
