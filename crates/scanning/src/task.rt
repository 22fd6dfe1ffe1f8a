// The bodies of tasks: runs, judgements and comparisons.
ghost use Rattle.sheet.specs.Sheet.{Sheet};
ghost use Rattle.sheet.specs.Frame.{run_body, judgement_body};
ghost use Rattle.scanning.specs.ForContracts.Digits.{span_bytes};
ghost use Rattle.scanning.specs.ForContracts.Scan.{FrameReady, Matches, task_result};
ghost use Rattle.scanning.specs.ForContracts.Known.{KnowsSheet};

use crate::frame::ground_terms;
use crate::known::Known;
use crate::text::{SheetPart, byte_at};
use format::kind::FrameKind;
use format::refusal::Refusal;

// A step limit, and a ground term.
fn run_task(known: Known, part: SheetPart) -> Result<(), Refusal>
    requires { FrameReady part.sheet.now part.span known }
    ensures { (sheet : Sheet) → KnowsSheet known sheet → Matches (run_body sheet (span_bytes part.entry.sheet.now part.entry.span)) result }
{
    if part.span.from == part.span.end {
        return Err(Refusal::FrameBytes);
    }
    ground_terms(known, part.tail(part.span.from + 2), 1)
}

// An equation, a direction, and a value for each variable up to the equation's highest.
fn judgement_task(known: Known, part: SheetPart) -> Result<(), Refusal>
    requires { FrameReady part.sheet.now part.span known × ((sheet : Sheet) × KnowsSheet known sheet) }
    ensures { (sheet : Sheet) → KnowsSheet known sheet → Matches (judgement_body sheet (span_bytes part.entry.sheet.now part.entry.span)) result }
{
    let from = part.span.from;
    if part.span.end - from < 4 {
        return Err(Refusal::FrameBytes);
    }
    let e = byte_at(part.sheet, from);
    if known.equations <= e || 1 < byte_at(part.sheet, from + 2) {
        return Err(Refusal::AbsentDirection);
    }
    ground_terms(known, part.tail(from + 4), usize::from(known.widths[e]))
}

// The body of a task of this kind.
pub fn task_body(known: Known, part: SheetPart, kind: FrameKind) -> Result<(), Refusal>
    requires { FrameReady part.sheet.now part.span known × ((sheet : Sheet) × KnowsSheet known sheet) }
    ensures { (sheet : Sheet) → KnowsSheet known sheet → Matches (task_result sheet kind (span_bytes part.entry.sheet.now part.entry.span)) result }
{
    match kind {
        FrameKind::Run => run_task(known, part),
        FrameKind::Judgement => judgement_task(known, part),
        FrameKind::Comparison => ground_terms(known, part, 2),
        _ => Err(Refusal::FrameOrder),
    }
}
