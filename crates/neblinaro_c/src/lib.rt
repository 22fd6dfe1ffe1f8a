// The calls for a marking host written in C: the functions of `neblinaro`, exported under their names, each with its clauses there.
#![tactic(auto)]

ghost use Rattle.std.specs.Prelude.{◌≡◌};
ghost use Rattle.outcomes.specs.Outcome.{always_call, check_call, compare_call, judge_call, run_call, solve_call};

use neblinaro::{always, check, compare, judge, run, solve};

// Check: the refusal and its line, or 0.
#[unsafe(no_mangle)]
pub extern "C" fn neblinaro_check(sheet: &[u8]) -> u64
    ensures value { result ≡ check_call sheet.now }
    ensures unchanged { sheet.exit.now ≡ sheet.entry.now }
{
    check::neblinaro_check(sheet)
}

// Compare: the verdict and its clause, or a refusal.
#[unsafe(no_mangle)]
pub extern "C" fn neblinaro_compare(sheet: &[u8], task: u64, scratch: &mut [u8]) -> u64
    ensures scratch_value { compare_call sheet.now task scratch.old ≡ record { returned = result; scratch = scratch.new } }
    ensures unchanged { sheet.exit.now ≡ sheet.entry.now }
{
    compare::neblinaro_compare(sheet, task, scratch)
}

// Solve: lines and turns, and the records in the table; or a refusal.
#[unsafe(no_mangle)]
pub extern "C" fn neblinaro_solve(
    sheet: &[u8],
    equation: u64,
    direction: u64,
    table: &mut [u8],
    scratch: &mut [u8],
) -> u64
    ensures scratch_value { solve_call sheet.now equation direction table.old scratch.old ≡ record { returned = result; table = table.new; scratch = scratch.new } }
    ensures unchanged { sheet.exit.now ≡ sheet.entry.now }
{
    solve::neblinaro_solve(sheet, equation, direction, table, scratch)
}

// Always: yes or no and the turns, or a refusal.
#[unsafe(no_mangle)]
pub extern "C" fn neblinaro_always(
    sheet: &[u8],
    equation: u64,
    direction: u64,
    table: &mut [u8],
    scratch: &mut [u8],
) -> u64
    ensures scratch_value { always_call sheet.now equation direction table.old scratch.old ≡ record { returned = result; table = table.new; scratch = scratch.new } }
    ensures unchanged { sheet.exit.now ≡ sheet.entry.now }
{
    always::neblinaro_always(sheet, equation, direction, table, scratch)
}

// Judge: yes or no and the first line that holds, or a refusal.
#[unsafe(no_mangle)]
pub extern "C" fn neblinaro_judge(
    sheet: &[u8],
    task: u64,
    table: &mut [u8],
    scratch: &mut [u8],
) -> u64
    ensures scratch_value { judge_call sheet.now task table.old scratch.old ≡ record { returned = result; table = table.new; scratch = scratch.new } }
    ensures unchanged { sheet.exit.now ≡ sheet.entry.now }
{
    judge::neblinaro_judge(sheet, task, table, scratch)
}

// Run: steps, ending and the bytes of the last term, that term and the log; or a refusal.
#[unsafe(no_mangle)]
pub extern "C" fn neblinaro_run(
    sheet: &[u8],
    task: u64,
    table: &mut [u8],
    scratch: &mut [u8],
    term: &mut [u8],
    log: &mut [u8],
) -> u64
    ensures log_value { run_call sheet.now task table.old scratch.old term.old log.old ≡ record { returned = result; table = table.new; scratch = scratch.new; term = term.new; log = log.new } }
    ensures unchanged { sheet.exit.now ≡ sheet.entry.now }
{
    run::neblinaro_run(sheet, task, table, scratch, term, log)
}
