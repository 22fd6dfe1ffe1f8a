// A run: step after step, until one of the three endings.
ghost use Rattle.std.specs.Prelude.{◌≡◌, true, List, ◌≤◌, length, drop};
ghost use Rattle.format.specs.Limits.{max_steps, table_bytes, scratch_bytes, log_bytes};
ghost use Rattle.terms.specs.Term.{Term};
ghost use Rattle.terms.specs.Equation.{Equation};
ghost use Rattle.step_search.specs.ForContracts.Seeking.{RunIs};
ghost use Rattle.run_steps.specs.ForContracts.Course.{CourseIs};

use format::limits::Limits;
use reducing::ending::Ending;
use rules::rows::Rows;
use step_by_position::positions::{FoundStep, Search};
use step_search::seek::find_step;
use step_take::step::{put_step, take_step};

// What a run starts from: the rules, whether the lines of all fit the table together, the step limit, and the subject: how many nodes it has, and these with their sizes.
#[derive(Clone, Copy)]
pub struct Start {
    pub rules: usize,
    pub fits: bool,
    pub limit: usize,
    pub size: usize,
    pub nodes: [u8; Limits::NODES],
    pub sizes: [u8; Limits::NODES],
}

// How a run ends: its steps, its ending, and its last term: how many nodes it has, and these, which stand as a subject's do.
#[derive(Clone, Copy)]
pub struct Course {
    pub steps: usize,
    pub ending: Ending,
    pub size: usize,
    pub nodes: [u8; Limits::NODES],
}

// "Before each step: none found, ending 00; k steps done, ending 01; result above 160 nodes, ending 02; else the step."
pub fn run_steps(
    equations: &[u8],
    lengths: &[u8],
    arities: &[u8],
    bounds: &[usize],
    next: &[u8],
    table: &mut [u8],
    start: Start,
    scratch: &mut [u8],
    log: &mut [u8],
) -> Course
    requires run_is { (es : List Equation) × (subject : Term) × RunIs equations.now lengths.now start.rules bounds.now next.now start.fits table.old start.nodes start.sizes start.size arities.now es subject }
    requires table_bytes_in_bounds { (table_bytes ≤ length table.old) × (scratch_bytes ≤ length scratch.old) × (log_bytes ≤ length log.old) × (start.limit ≤ max_steps) }
    ensures course_is { (es : List Equation) (subject : Term) → RunIs equations.now lengths.now start.rules bounds.now next.now start.fits table.old start.nodes start.sizes start.size arities.now es subject → CourseIs arities.now es start.limit subject log.old log.new result }
    ensures table_unchanged { start.fits ≡ true → table.new ≡ table.old }
    ensures table_unchanged_2 { drop table_bytes table.new ≡ drop table_bytes table.old }
    ensures scratch_unchanged { drop scratch_bytes scratch.new ≡ drop scratch_bytes scratch.old }
{
    let rows = Rows { equations, lengths };
    let limit = start.limit;
    let mut nodes = start.nodes;
    let mut sizes = start.sizes;
    let mut size = start.size;
    let mut steps = 0;
    loop {
        let search = Search {
            rules: start.rules,
            fits: start.fits,
            size,
        };
        let found = find_step(
            &rows, search, bounds, next, table, &mut nodes, &mut sizes, scratch,
        );
        let Some(FoundStep { rule, node }) = found else {
            return Course {
                steps,
                ending: Ending::NoneFound,
                size,
                nodes,
            };
        };
        if steps == limit {
            return Course {
                steps,
                ending: Ending::LimitReached,
                size,
                nodes,
            };
        }
        let replaced = take_step(&rows, rule, arities, &mut nodes, &mut sizes, node, size);
        let Some(now) = replaced else {
            return Course {
                steps,
                ending: Ending::ResultTooLarge,
                size,
                nodes,
            };
        };
        put_step(log, steps, rule, node - Limits::SUBJECT);
        size = now;
        steps += 1;
    }
}
