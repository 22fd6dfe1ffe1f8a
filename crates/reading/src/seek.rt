// Where the frames of an accepted sheet stand, and their bytes.
ghost use Rattle.std.specs.Prelude.{List, ℕ, ◌≤◌, ◌<◌, length};
ghost use Rattle.format.specs.Limits.{position_count};
ghost use Rattle.terms.specs.Equation.{Equation};
ghost use Rattle.terms.specs.Prefix.{equation_bytes};
ghost use Rattle.sheet.specs.Sheet.{Task};
ghost use Rattle.sheet.specs.ForContracts.Frames.{task_frame};
ghost use Rattle.reading.specs.ForContracts.Seek.{Accepts, AllFrames, FrameIn, EquationIn, TaskIn, Spans, Decoded, TaskAt};

use format::kind::FrameKind;
use reader::reader::Reader;
use scanning::known::Known;
use scanning::text::{SheetPart, Span, byte_at};

// The digits of line `n`, counted from 0, where all lines are frames.
fn frame_at(s: &[u8], n: usize) -> Span
    requires { AllFrames s.now × ((frame : List ℕ) × FrameIn s.now n frame) }
    ensures { (frame : List ℕ) → FrameIn s.now n frame → Spans s.now result.from result.end frame }
{
    // Every line is a frame, and line `n` is there.
    let line = Reader::new(s).nth(n).unwrap().unwrap();
    line.digits
}

// The bytes that the digits write, to the front of `out`; how many.
pub fn decode(part: SheetPart, out: &mut [u8]) -> usize
    requires { (bs : List ℕ) × Spans part.sheet.now part.span.from part.span.end bs × (length bs ≤ length out.old) }
    ensures { (bs : List ℕ) → Spans part.entry.sheet.now part.entry.span.from part.entry.span.end bs → Decoded bs out.old out.new result }
{
    let count = (part.span.end - part.span.from) / 2;
    for n in 0..count {
        out[n] = byte_at(part.sheet, part.span.from + 2 * n) as u8;
    }
    count
}

// The bytes of equation `e`, left side then right side, to the front of `out`; how many.
pub fn equation_at(s: &[u8], known: Known, e: usize, out: &mut [u8]) -> usize
    requires { Accepts s.now known × (e < known.equations) × (position_count ≤ length out.old) }
    ensures { (q : Equation) → EquationIn s.now e q → Decoded (equation_bytes q) out.old out.new result }
{
    let frame = frame_at(s, e + 1);
    let sides = SheetPart {
        sheet: s,
        span: Span {
            from: frame.from + 2,
            ..frame
        },
    };
    decode(sides, out)
}

// What a task asks for besides its terms.
#[derive(Clone, Copy)]
pub enum TaskHead {
    Run { limit: usize },
    Judgement { equation: usize, direction: usize },
    Comparison,
}

// A task, and the digits of its terms.
#[derive(Clone, Copy)]
pub struct TaskFound {
    pub head: TaskHead,
    pub terms: Span,
}

// Task `k`.
pub fn find_task(s: &[u8], known: Known, k: usize) -> TaskFound
    requires { Accepts s.now known × (k < known.tasks) }
    ensures { (t : Task) → TaskIn s.now k t → TaskAt s.now t result }
{
    let frame = frame_at(s, known.equations + k + 1);
    task_head(SheetPart {
        sheet: s,
        span: frame,
    })
}

// The frame of a task taken apart.
fn task_head(part: SheetPart) -> TaskFound
    requires { (t : Task) × Spans part.sheet.now part.span.from part.span.end (task_frame t) }
    ensures { (t : Task) → Spans part.entry.sheet.now part.entry.span.from part.entry.span.end (task_frame t) → TaskAt part.entry.sheet.now t result }
{
    let SheetPart { sheet, span } = part;
    let from = span.from;
    let kind = FrameKind::from(byte_at(sheet, from) as u8);
    match kind {
        FrameKind::Run => TaskFound {
            head: TaskHead::Run {
                limit: byte_at(sheet, from + 2),
            },
            terms: Span {
                from: from + 4,
                ..span
            },
        },
        FrameKind::Judgement => TaskFound {
            head: TaskHead::Judgement {
                equation: byte_at(sheet, from + 2),
                direction: byte_at(sheet, from + 4),
            },
            terms: Span {
                from: from + 6,
                ..span
            },
        },
        _ => TaskFound {
            head: TaskHead::Comparison,
            terms: Span {
                from: from + 2,
                ..span
            },
        },
    }
}
