// Frames in order, and a whole sheet line by line.
ghost use Rattle.std.specs.Prelude.{◌≡◌, ◌+◌, ◌≤◌, ◌<◌, length, set};
ghost use Rattle.format.specs.Limits.{max_text, variable_count, max_equations, max_tasks};
ghost use Rattle.sheet.specs.Sheet.{Sheet};
ghost use Rattle.sheet.specs.Frame.{State, start, within, read_kind, read_frame};
ghost use Rattle.scanning.specs.ForContracts.Digits.{span_bytes, SpanReady};
ghost use Rattle.scanning.specs.ForContracts.Scan.{FrameReady};
ghost use Rattle.scanning.specs.ForContracts.Known.{KnowsSheet};
ghost use Rattle.format.specs.declared.refusal.Refusal.TheVariants.{Digits};
ghost use Rattle.reading.specs.ForContracts.Read.{Knows, FrameRead, SheetRead};

use crate::symbols::symbols_body;
use format::kind::FrameKind;
use format::limits::Limits;
use format::refusal::Refusal;
use reader::line::{BrokenLine, FrameLine};
use reader::reader::Reader;
use scanning::frame::equation_body;
use scanning::known::Known;
use scanning::task::task_body;
use scanning::text::{SheetPart, byte_at};

// One more equation, with as many variables up to its highest.
fn with_equation(known: Known, width: usize) -> Known
    requires { (known.equations < max_equations) × (width ≤ variable_count) }
    ensures { result ≡ record { symbols = known.symbols; arities = known.arities; equations = known.equations + 1; widths = set known.widths known.equations width; tasks = known.tasks } }
{
    let mut more = known;
    more.widths[known.equations] = width as u8;
    more.equations += 1;
    more
}

fn with_task(known: Known) -> Known
    requires { known.tasks < max_tasks }
    ensures { result ≡ record { symbols = known.symbols; arities = known.arities; equations = known.equations; widths = known.widths; tasks = known.tasks + 1 } }
{
    Known {
        tasks: known.tasks + 1,
        ..known
    }
}

// An equation's frame, behind its kind.
fn equation_frame(known: Known, part: SheetPart) -> Result<Known, Refusal>
    requires { FrameReady part.sheet.now part.span known × ((sheet : Sheet) × KnowsSheet known sheet) }
    ensures { (sheet : Sheet) → KnowsSheet known sheet → FrameRead (read_kind (within sheet) FrameKind.Equation (span_bytes part.entry.sheet.now part.entry.span)) result }
{
    if 0 < known.tasks || Limits::EQUATIONS <= known.equations {
        return Err(Refusal::FrameOrder);
    }
    let width = equation_body(known, part)?;
    Ok(with_equation(known, width))
}

// A frame of any other kind, behind the symbols'.
fn task_frame(known: Known, part: SheetPart, kind: FrameKind) -> Result<Known, Refusal>
    requires { FrameReady part.sheet.now part.span known × ((sheet : Sheet) × KnowsSheet known sheet) × (kind ≡ FrameKind.Equation → ⊥) }
    ensures { (sheet : Sheet) → KnowsSheet known sheet → FrameRead (read_kind (within sheet) kind (span_bytes part.entry.sheet.now part.entry.span)) result }
{
    if known.equations == 0 || Limits::TASKS <= known.tasks {
        return Err(Refusal::FrameOrder);
    }
    task_body(known, part, kind)?;
    Ok(with_task(known))
}

// The first frame: the symbols'.
fn first_frame(part: SheetPart, kind: FrameKind) -> Result<Known, Refusal>
    requires { SpanReady part.sheet.now part.span }
    ensures { FrameRead (read_kind start kind (span_bytes part.entry.sheet.now part.entry.span)) result }
{
    match kind {
        FrameKind::Symbols => symbols_body(part),
        _ => Err(Refusal::FrameOrder),
    }
}

// One frame: what is known behind it.
pub fn read_frame(known: Known, part: SheetPart) -> Result<Known, Refusal>
    requires { SpanReady part.sheet.now part.span × (part.span.from < part.span.end) × ((state : State) × Knows known state) }
    ensures { (state : State) → Knows known state → FrameRead (read_frame state (span_bytes part.entry.sheet.now part.entry.span)) result }
{
    let kind = FrameKind::from(byte_at(part.sheet, part.span.from) as u8);
    let body = part.tail(part.span.from + 2);
    if known.symbols == 0 {
        return first_frame(body, kind);
    }
    match kind {
        FrameKind::Equation => equation_frame(known, body),
        _ => task_frame(known, body, kind),
    }
}

// Why a sheet is refused, and the line of it.
#[derive(Clone, Copy)]
pub struct RefusedAt {
    pub why: Refusal,
    pub line: usize,
}

impl From<BrokenLine> for RefusedAt {
    ghost from_gives = { λ broken refused. refused ≡ record { why = Digits; line = broken.number } };

    fn from(broken: BrokenLine) -> RefusedAt {
        RefusedAt {
            why: Refusal::Digits,
            line: broken.number,
        }
    }
}

// A sheet: what is known of it, or where it is refused.
#[tactic(auto, using(crate::proofs::Lines::empty_text, crate::proofs::Lines::long_text))]
pub fn read_sheet(s: &[u8]) -> Result<Known, RefusedAt>
    ensures { SheetRead s.now result }
{
    if s.is_empty() || Limits::TEXT < s.len() {
        return Err(RefusedAt {
            why: Refusal::TextLength,
            line: 0,
        });
    }
    read_lines(s)
}

// The lines of a text of allowed length.
fn read_lines(s: &[u8]) -> Result<Known, RefusedAt>
    requires { (1 ≤ length s.now) × (length s.now ≤ max_text) }
    ensures { SheetRead s.now result }
{
    let mut known = Known::nothing();
    let mut lines = 0;
    for line in Reader::new(s) {
        let FrameLine { number, digits } = line?;
        let part = SheetPart {
            sheet: s,
            span: digits,
        };
        known = read_frame(known, part).map_err(|why| RefusedAt { why, line: number })?;
        lines = number;
    }
    if known.equations == 0 {
        return Err(RefusedAt {
            why: Refusal::FrameOrder,
            line: lines,
        });
    }
    Ok(known)
}
