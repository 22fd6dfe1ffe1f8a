// The frames of a task: a run's, a judgement's or a comparison's.
ghost use Rattle.std.specs.Prelude.{◌≡◌, List, [], ◌∷◌, ℕ, ◌≤◌, length};
ghost use Rattle.std.proofs.Math.Option.{some};
ghost use Rattle.format.specs.Limits.{max_steps, table_bytes, scratch_bytes};
ghost use Rattle.format.specs.Lists.{entry};
ghost use Rattle.terms.specs.Term.{Term, Terms};
ghost use Rattle.terms.specs.Equation.{Equation};
ghost use Rattle.terms.specs.declared.direction.Direction.{Direction};
ghost use Rattle.sheet.specs.Sheet.{Task, Sheet, run};
ghost use Rattle.scanning.specs.ForContracts.Scan.{known_arities};
ghost use Rattle.reducing.specs.Test.{EverySolves, holding_line, given_values};
ghost use Rattle.listing.specs.Listing.{printed, judgement_frame};
ghost use Rattle.rules.specs.ForContracts.Walks.{LinesReady};
ghost use Rattle.listing.specs.ForContracts.Appended.{Appended};
ghost use Rattle.frames.specs.ForContracts.Room.{judgement_room, task_room};
ghost use Rattle.run_term.specs.ForContracts.RunTerm.{RunTermIs, HasRunTerm};
ghost use Rattle.cursor.specs.ForContracts.Stands.{Ready};
ghost use Rattle.tasks.specs.ForContracts.Task.{TaskGiven, HasTask, JudgementAt, HasJudgementAt};

use compare_task::compare::compare_terms;
use format::limits::Limits;
use frames::fixed::{put_comparison, put_judgement};
use frames::steps::{put_run, put_steps};
use judge_task::task::judge_values;
use kept_lines::trimmed::keep_lines;
use reading::seek::{TaskHead, find_task};
use rules::keep::walk_rule;
use rules::opened::Opened;
use rules::rows::Rows;
use run_term::term::{RunAsked, run_course};
use scanning::known::Known;
use scanning::text::Span;

// The bytes that stand in the buffer, and the steps of a run.
#[derive(Clone, Copy)]
pub struct TaskListed {
    pub bytes: usize,
    pub steps: usize,
}

// "judgement, '15', yes 01 or no 00, holding line or 00": walks its own rule, and keeps its lines: not by `keep_rule`, whose clause does not
// say that what is kept are the lines of the walk.
fn list_judgement(
    sheet: &[u8],
    known: Known,
    rule: usize,
    digits: Span,
    rows: &Rows,
    scratch: &mut [u8],
    out: &mut [u8],
) -> usize
    requires has_judgement_at { HasJudgementAt sheet.now known digits.from digits.end rows.now.equations.now rows.now.lengths.now rule }
    requires scratch_bytes_in_bounds { (scratch_bytes ≤ length scratch.old) × (judgement_room ≤ length out.old) }
    ensures { (i : ℕ) (e : Equation) (d : Direction) (ts : Terms) → JudgementAt sheet.now known digits.from digits.end rows.now.equations.now rows.now.lengths.now rule i e d ts → Appended out.old 0 (printed (judgement_frame (holding_line e d (given_values ts)) ∷ [])) out.new result }
{
    // Not met: every direction of a sheet that is listed solves.
    let Ok(walked) = walk_rule(rows, rule, scratch) else {
        return 0;
    };
    let mut lines = [0u8; Limits::TABLE];
    // Not met: the table has room for the lines of one rule.
    let Some(filled) = keep_lines(scratch, walked.lines, &mut lines, 0) else {
        return 0;
    };
    let holding = judge_values(
        sheet,
        known,
        digits,
        rows.equations,
        rows.lengths,
        rule,
        &lines,
        filled,
        scratch,
    );
    put_judgement(holding, out, 0)
}

// "run, each step '14', equation, direction, position, then '13', ending, steps, term".
fn list_run(
    sheet: &[u8],
    asked: RunAsked,
    rows: &Rows,
    bounds: &[usize],
    table: &mut [u8],
    scratch: &mut [u8],
    out: &mut [u8],
) -> TaskListed
    requires has_run_term { HasRunTerm sheet.now asked.opened.known asked.digits.from asked.digits.end rows.now.equations.now rows.now.lengths.now bounds.now asked.opened.fits table.old × (asked.limit ≤ max_steps) }
    requires table_bytes_in_bounds { (table_bytes ≤ length table.old) × (scratch_bytes ≤ length scratch.old) × (task_room ≤ length out.old) }
    ensures task_given { (es : List Equation) (subject : Term) → RunTermIs sheet.now asked.opened.known asked.digits.from asked.digits.end rows.now.equations.now rows.now.lengths.now bounds.now es subject → LinesReady asked.opened.fits bounds.now table.old es → TaskGiven (known_arities asked.opened.known) es (run asked.limit subject) out.old out.new result }
    ensures lines_ready { (es : List Equation) → EverySolves es → LinesReady asked.opened.fits bounds.now table.old es → LinesReady asked.opened.fits bounds.now table.new es }
{
    let mut term = [0u8; Limits::TERM];
    let mut log = [0u8; Limits::LOG];
    let course = run_course(
        sheet,
        asked,
        rows.equations,
        rows.lengths,
        bounds,
        table,
        scratch,
        &mut term,
        &mut log,
    );
    let steps = course.steps;
    let behind = put_steps(&log, steps, out, 0);
    let last = &term[..course.size];
    let bytes = put_run(course.ending, steps, last, out, behind);
    TaskListed { bytes, steps }
}

// Task `task`.
pub fn list_task(
    sheet: &[u8],
    opened: Opened,
    task: usize,
    rows: &Rows,
    bounds: &[usize],
    table: &mut [u8],
    scratch: &mut [u8],
    out: &mut [u8],
) -> TaskListed
    requires has_task { HasTask sheet.now opened.known task rows.now.equations.now rows.now.lengths.now bounds.now opened.fits table.old }
    requires table_bytes_in_bounds { (table_bytes ≤ length table.old) × (scratch_bytes ≤ length scratch.old) × (task_room ≤ length out.old) }
    ensures task_given { (s : Sheet) (t : Task) → Ready sheet.now opened.known opened.fits rows.now.equations.now rows.now.lengths.now bounds.now table.old s → entry s.tasks task ≡ some t → TaskGiven s.arities s.equations t out.old out.new result }
    ensures lines_ready { (es : List Equation) → EverySolves es → LinesReady opened.fits bounds.now table.old es → LinesReady opened.fits bounds.now table.new es }
{
    let known = opened.known;
    let found = find_task(sheet, known, task);
    let digits = found.terms;
    match found.head {
        TaskHead::Run { limit } => {
            let asked = RunAsked {
                opened,
                limit,
                digits,
            };
            list_run(sheet, asked, rows, bounds, table, scratch, out)
        }
        TaskHead::Judgement {
            equation,
            direction,
        } => {
            let rule = equation + equation + direction;
            let bytes = list_judgement(sheet, known, rule, digits, rows, scratch, out);
            TaskListed { bytes, steps: 0 }
        }
        TaskHead::Comparison => {
            let decision = compare_terms(sheet, known, digits, scratch);
            let bytes = put_comparison(decision, out, 0);
            TaskListed { bytes, steps: 0 }
        }
    }
}
