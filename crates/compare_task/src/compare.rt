// Compare: the verdict of a task of two ground terms, with the clause that decided it.
ghost use Rattle.std.specs.Prelude.{◌≡◌, true, ◌≤◌, length};
ghost use Rattle.format.specs.Limits.{scratch_bytes};
ghost use Rattle.terms.specs.Term.{Term};
ghost use Rattle.ordering.specs.Decision.{decision};
ghost use Rattle.reading.specs.ForContracts.Seek.{Accepts};
ghost use Rattle.scanning.specs.ForContracts.Scan.{known_arities};
ghost use Rattle.scanning.specs.ForContracts.Known.{Roomy};
ghost use Rattle.outcomes.specs.Buffer.{cleared};
ghost use Rattle.outcomes.specs.Asked.{asked, comparison_task};
ghost use Rattle.outcomes.specs.Outcome.{decision_fields, compare_answer};
ghost use Rattle.compare_task.specs.ForContracts.Comparison.{PairIn, PairLoaded};

use clauses::compare::compare;
use comparing::comparison::Compared;
use format::limits::Limits;
use format::refusal::Refusal;
use ordering::decision::Decision;
use outcomes::buffer::fill;
use outcomes::number::{fields_number, refusal_number};
use reading::load::load_terms;
use reading::seek::{TaskHead, find_task};
use scanning::known::Known;
use scanning::text::Span;

// The decision on two terms that are stored. The cells stand first in scratch. No row of them is ready before, and all of scratch is cleared behind.
fn compare_stored(nodes: &[u8], sizes: &[u8], scratch: &mut [u8]) -> Decision
    requires pair_loaded { (s : Term) × (t : Term) × PairLoaded nodes.now sizes.now s t }
    requires scratch_bytes_in_bounds { scratch_bytes ≤ length scratch.old }
    ensures value { (s t : Term) → PairLoaded nodes.now sizes.now s t → result ≡ decision s t }
    ensures scratch_after { scratch.new ≡ cleared scratch.old }
{
    // Ground terms have no variables whose values are asked for.
    let values = [0u8; Limits::VARIABLES];
    let mut ready = [0u8; Limits::NODES];
    let second = Limits::SUBJECT + usize::from(sizes[Limits::SUBJECT]);
    let compared = Compared {
        nodes,
        sizes,
        values: &values,
    };
    let decision = compare(
        &compared,
        &mut ready,
        &mut scratch[..Limits::CELLS],
        Limits::SUBJECT,
        second,
    );
    fill(scratch, Limits::SCRATCH, 0);
    decision
}

// The decision on the two terms that the digits write.
pub fn compare_terms(sheet: &[u8], known: Known, digits: Span, scratch: &mut [u8]) -> Decision
    requires pair_in { (s : Term) × (t : Term) × PairIn sheet.now (known_arities known) digits.from digits.end s t }
    requires roomy { Roomy known × (scratch_bytes ≤ length scratch.old) }
    ensures value { (s t : Term) → PairIn sheet.now (known_arities known) digits.from digits.end s t → result ≡ decision s t }
    ensures scratch_after { scratch.new ≡ cleared scratch.old }
{
    let mut nodes = [0u8; Limits::NODES];
    let mut sizes = [0u8; Limits::NODES];
    load_terms(
        sheet,
        digits,
        known.symbol_arities(),
        &mut nodes,
        &mut sizes,
    );
    compare_stored(&nodes, &sizes, scratch)
}

// The numbers of a decision as fields.
fn decision_number(decision: Decision) -> u64
    ensures { result ≡ decision_fields decision }
{
    let verdict = u8::from(decision.verdict());
    fields_number(u16::from(verdict), u16::from(decision.clause_number()), 0)
}

// Compare on an accepted sheet.
pub fn compare_task(sheet: &[u8], known: Known, task: u64, scratch: &mut [u8]) -> u64
    requires { Accepts sheet.now known × (scratch_bytes ≤ length scratch.old) }
    ensures { compare_answer scratch.old (asked true sheet.now (comparison_task task)) ≡ record { returned = result; scratch = scratch.new } }
{
    if known.tasks as u64 <= task {
        return refusal_number(Refusal::AbsentArgument, 0);
    }
    let found = find_task(sheet, known, task as usize);
    let head = found.head;
    match head {
        TaskHead::Comparison => {
            let decision = compare_terms(sheet, known, found.terms, scratch);
            decision_number(decision)
        }
        TaskHead::Run { .. } => refusal_number(Refusal::AbsentArgument, 0),
        TaskHead::Judgement { .. } => refusal_number(Refusal::AbsentArgument, 0),
    }
}
