// The run of a task's term: its steps, its ending and its last term.
ghost use Rattle.std.specs.Prelude.{◌≡◌, true, List, ℕ, ◌≤◌, length, drop};
ghost use Rattle.format.specs.Limits.{max_steps, max_task_nodes, table_bytes, scratch_bytes, term_bytes, log_bytes};
ghost use Rattle.terms.specs.Term.{Term};
ghost use Rattle.terms.specs.Equation.{Equation};
ghost use Rattle.scanning.specs.ForContracts.Scan.{known_arities};
ghost use Rattle.reducing.specs.Run.{ending_number};
ghost use Rattle.outcomes.specs.Buffer.{fields};
ghost use Rattle.rules.specs.ForContracts.Walks.{LinesReady};
ghost use Rattle.step_by_position.specs.ForContracts.Next.{next_bytes, NextIs, RulesKept, HasRulesKept};
ghost use Rattle.run_term.specs.ForContracts.RunTerm.{RunTermIs, HasRunTerm, RunCourse};

use crate::filling::put_filling;
use format::copy::copy_front;
use format::limits::Limits;
use outcomes::number::fields_number;
use reading::load::load_terms;
use rules::opened::Opened;
use rules::rows::Rows;
use run_steps::course::{Course, Start, run_steps};
use scanning::text::Span;
use step_by_position::next::{NEXT, fill_next};

// The table of next rules, where the search goes by positions.
fn prepare_next(
    rows: &Rows,
    rules: usize,
    bounds: &[usize],
    fits: bool,
    table: &[u8],
    next: &mut [u8],
)
    requires has_rules_kept { fits ≡ true → HasRulesKept rows.now.equations.now rows.now.lengths.now rules bounds.now table.now }
    requires next_len { length next.old ≡ next_bytes }
    ensures { fits ≡ true → (arities : List ℕ) (es : List Equation) → RulesKept rows.now.equations.now rows.now.lengths.now rules bounds.now table.now arities es → NextIs next.new rules es }
{
    if fits {
        fill_next(rows, rules, bounds, table, next);
    }
}

// What a run is asked: the opened sheet, the step limit, and the digits of the term.
#[derive(Clone, Copy)]
pub struct RunAsked {
    pub opened: Opened,
    pub limit: usize,
    pub digits: Span,
}

// The run of a term, over rules that all solve: its steps and ending, the last term and the log. Lines that are kept stay.
pub fn run_course(
    sheet: &[u8],
    asked: RunAsked,
    equations: &[u8],
    lengths: &[u8],
    bounds: &[usize],
    table: &mut [u8],
    scratch: &mut [u8],
    term: &mut [u8],
    log: &mut [u8],
) -> Course
    requires has_run_term { HasRunTerm sheet.now asked.opened.known asked.digits.from asked.digits.end equations.now lengths.now bounds.now asked.opened.fits table.old × (asked.limit ≤ max_steps) }
    requires table_bytes_in_bounds { (table_bytes ≤ length table.old) × (scratch_bytes ≤ length scratch.old) × (term_bytes ≤ length term.old) × (log_bytes ≤ length log.old) }
    ensures run_course { (es : List Equation) (subject : Term) → RunTermIs sheet.now asked.opened.known asked.digits.from asked.digits.end equations.now lengths.now bounds.now es subject → LinesReady asked.opened.fits bounds.now table.old es → RunCourse (known_arities asked.opened.known) es asked.limit subject term.old term.new log.old log.new result }
    ensures table_unchanged { asked.opened.fits ≡ true → table.new ≡ table.old }
    ensures table_unchanged_2 { drop table_bytes table.new ≡ drop table_bytes table.old }
    ensures scratch_unchanged { drop scratch_bytes scratch.new ≡ drop scratch_bytes scratch.old }
{
    let rows = Rows { equations, lengths };
    let Opened { known, fits } = asked.opened;
    let rules = known.equations + known.equations;
    let mut next = [0u8; NEXT];
    prepare_next(&rows, rules, bounds, fits, table, &mut next);
    let mut nodes = [0u8; Limits::NODES];
    let mut sizes = [0u8; Limits::NODES];
    let arities = known.symbol_arities();
    let size = load_terms(sheet, asked.digits, arities, &mut nodes, &mut sizes);
    put_filling(arities, &mut nodes, &mut sizes);
    let start = Start {
        rules,
        fits,
        limit: asked.limit,
        size,
        nodes,
        sizes,
    };
    let course = run_steps(
        equations, lengths, arities, bounds, &next, table, start, scratch, log,
    );
    copy_front(&course.nodes[Limits::SUBJECT..], term, course.size);
    course
}

// The number that run returns.
pub fn course_number(course: Course) -> u64
    requires { (course.steps ≤ max_steps) × (course.size ≤ max_task_nodes) }
    ensures { result ≡ fields course.steps (ending_number course.ending) course.size }
{
    fields_number(
        course.steps as u16,
        u16::from(u8::from(course.ending)),
        course.size as u16,
    )
}
