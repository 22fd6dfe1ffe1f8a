// The reader of a sheet: the sheet and how far the reader has come in it. Document 01: it "goes over the lent sheet line by line and remembers how far it
// has come".
ghost use Rattle.std.specs.Prelude.{◌≡◌, ◌≤◌};
ghost use Rattle.reader.specs.ForContracts.Lines.{Counted, LineStep, bytes_left};

use crate::line::{BrokenLine, FrameLine};
use scanning::text::{Span, line_end};

// How far it has come: the offset of its next byte, and how many lines stand before that.
#[derive(Clone, Copy)]
pub struct Reader<'a> {
    pub sheet: &'a [u8],
    pub offset: usize,
    pub lines: usize,
}

impl<'a> Reader<'a> {
    // A reader at the sheet's start.
    pub fn new(sheet: &'a [u8]) -> Reader<'a>
        ensures { (result.sheet ≡ sheet.entry) × (result.offset ≡ 0) × (result.lines ≡ 0) }
    {
        Reader {
            sheet,
            offset: 0,
            lines: 0,
        }
    }
}

// The lines up to the sheet's end or to the first that is broken. Each line passed has at least its LF, so that the next number does not wrap.
impl<'a> Iterator for Reader<'a> {
    type Item = Result<FrameLine, BrokenLine>;

    ghost can_next = { Counted };

    ghost next_gives = { LineStep };

    ghost remaining = { bytes_left };

    fn next(&mut self) -> Option<Result<FrameLine, BrokenLine>> {
        if self.sheet.len() <= self.offset {
            return None;
        }
        let from = self.offset;
        let number = self.lines + 1;
        match line_end(self.sheet, from) {
            None => {
                self.offset = self.sheet.len();
                Some(Err(BrokenLine { number }))
            }
            Some(end) => {
                self.offset = end + 1;
                self.lines = number;
                let digits = Span { from, end };
                Some(Ok(FrameLine { number, digits }))
            }
        }
    }
}
