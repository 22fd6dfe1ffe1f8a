// The comparison: the verdict of two terms by L1 to L3.
ghost use Rattle.std.specs.Prelude.{◌≡◌, ◌≤◌, ◌<◌, get_or};
ghost use Rattle.format.specs.Limits.{first_variable, position_count};
ghost use Rattle.cells.specs.ForContracts.Cells.{SettledCells};
ghost use Rattle.comparing.specs.ForContracts.Comparing.{greater_if, HasTerm, HasTerms, Compares, FindsReaching, ComparesWithAll, FindsDifference};

use crate::constants::tell_constants;
use cells::nodes::resolve;
use cells::passing::behind_smaller;
use cells::settled::{held, make_ready, settle};
use format::limits::Limits;
use ordering::verdict::Verdict;
use terms::arguments::{Arguments, arguments_of, other_arguments};

// The verdict of two terms that are not equal.
#[tactic(auto, unfolding(crate::specs::ForContracts::Comparing::greater_if))]
fn greater_if(greater: bool) -> Verdict
    ensures { result ≡ greater_if greater }
{
    if greater {
        Verdict::Greater
    } else {
        Verdict::Smaller
    }
}

// The nodes of a comparison, with the size of the term at each, and the nodes of the variables' values. The cells are passed beside it: a struct that held them as well, by `&mut`, would need in each contract
// that all five references stay the same.
#[derive(Clone, Copy)]
pub struct Compared<'a> {
    pub nodes: &'a [u8],
    pub sizes: &'a [u8],
    pub values: &'a [u8; Limits::VARIABLES],
}

// The verdict of the first two arguments that are not equal, and the arguments behind them. Equally many arguments are not asked for: where one of the terms has no
// more, what is left is as if the first one's argument were smaller.
#[derive(Clone, Copy)]
pub struct Difference {
    verdict: Verdict,
    first: Arguments,
    second: Arguments,
}

impl Compared<'_> {
    // The verdict of the terms at the nodes i and j. The second node is the subject's, and so is each that is asked about behind it, so that no cell is used whose
    // second node is the equation's.
    #[cycle(comparison)]
    pub fn exceeds(
        &self,
        ready: &mut [u8; Limits::NODES],
        cells: &mut [u8],
        i: usize,
        j: usize,
    ) -> Verdict
        requires settled_cells { SettledCells self.now.nodes.now self.now.sizes.now self.now.values.now ready.old cells.old }
        requires has_term { HasTerm self.now.nodes.now self.now.sizes.now self.now.values.now i }
        requires has_term_2 { HasTerm self.now.nodes.now self.now.sizes.now self.now.values.now j × (position_count ≤ j) }
        ensures compares { Compares self.now.nodes.now self.now.sizes.now self.now.values.now i j result }
        ensures settled_cells_2 { SettledCells self.now.nodes.now self.now.sizes.now self.now.values.now ready.new cells.new }
    {
        let s = resolve(self.nodes, self.values, i);
        if let Some(verdict) = tell_constants(self.nodes, self.sizes, s, j) {
            return verdict;
        }
        make_ready(ready, cells, s);
        let cell = s * Limits::ROW_CELLS + j;
        let known = cells[cell];
        if 0 < known {
            return held(known);
        }
        let verdict = self.compare_symbols(ready, cells, s, j);
        settle(cells, cell, verdict)
    }

    // The verdict of the terms at two nodes that are symbols, by one question. A term that exceeds another exceeds its arguments too, so that L1 need be
    // asked only where L2 and L3 cannot hold.
    #[cycle(comparison)]
    fn compare_symbols(
        &self,
        ready: &mut [u8; Limits::NODES],
        cells: &mut [u8],
        i: usize,
        j: usize,
    ) -> Verdict
        requires settled_cells { SettledCells self.now.nodes.now self.now.sizes.now self.now.values.now ready.old cells.old }
        requires has_term { HasTerm self.now.nodes.now self.now.sizes.now self.now.values.now i × (get_or self.now.nodes.now i 0 < first_variable) }
        requires has_term_2 { HasTerm self.now.nodes.now self.now.sizes.now self.now.values.now j × (position_count ≤ j) }
        ensures compares { Compares self.now.nodes.now self.now.sizes.now self.now.values.now i j result }
        ensures settled_cells_2 { SettledCells self.now.nodes.now self.now.sizes.now self.now.values.now ready.new cells.new }
    {
        let f = self.nodes[i];
        let g = self.nodes[j];
        if f < g {
            let row = arguments_of(self.sizes, i);
            return greater_if(self.argument_reaches(ready, cells, row, j));
        }
        if g < f {
            let row = arguments_of(self.sizes, j);
            return greater_if(self.exceeds_arguments(ready, cells, i, row));
        }
        self.compare_arguments(ready, cells, i, j)
    }

    // L1: whether one of the terms in the row equals or exceeds the term at j. A term whose symbol is smaller than that at j does so exactly if one of its arguments does, which stand right behind its symbol.
    #[cycle(comparison)]
    pub fn argument_reaches(
        &self,
        ready: &mut [u8; Limits::NODES],
        cells: &mut [u8],
        row: Arguments,
        j: usize,
    ) -> bool
        requires settled_cells { SettledCells self.now.nodes.now self.now.sizes.now self.now.values.now ready.old cells.old }
        requires has_terms { HasTerms self.now.nodes.now self.now.sizes.now self.now.values.now row }
        requires has_term { HasTerm self.now.nodes.now self.now.sizes.now self.now.values.now j × (position_count ≤ j) }
        ensures finds_reaching { FindsReaching self.now.nodes.now self.now.sizes.now self.now.values.now row j result }
        ensures settled_cells_2 { SettledCells self.now.nodes.now self.now.sizes.now self.now.values.now ready.new cells.new }
    {
        let g = self.nodes[j];
        let end = row.end;
        let mut at = row.from;
        while at < end {
            if self.nodes[at] < g {
                at = behind_smaller(self.nodes, at + 1, end, g);
                continue;
            }
            let Verdict::Smaller = self.exceeds(ready, cells, at, j) else {
                return true;
            };
            at += usize::from(self.sizes[at]);
        }
        false
    }

    // L2: whether the term at i exceeds every term in the row. It exceeds a term whose symbol is smaller than its own exactly if it exceeds every argument of that one, which stand right behind its symbol.
    // No one function with `argument_reaches`: here the row's terms come second and the answer is whether all pass, so that nothing but the walk would be shared.
    #[cycle(comparison)]
    pub fn exceeds_arguments(
        &self,
        ready: &mut [u8; Limits::NODES],
        cells: &mut [u8],
        i: usize,
        row: Arguments,
    ) -> bool
        requires settled_cells { SettledCells self.now.nodes.now self.now.sizes.now self.now.values.now ready.old cells.old }
        requires has_term { HasTerm self.now.nodes.now self.now.sizes.now self.now.values.now i × (get_or self.now.nodes.now i 0 < first_variable) }
        requires has_terms { HasTerms self.now.nodes.now self.now.sizes.now self.now.values.now row × (position_count ≤ row.from) }
        ensures compares_with_all { ComparesWithAll self.now.nodes.now self.now.sizes.now self.now.values.now i row result }
        ensures settled_cells_2 { SettledCells self.now.nodes.now self.now.sizes.now self.now.values.now ready.new cells.new }
    {
        let f = self.nodes[i];
        let end = row.end;
        let mut at = row.from;
        while at < end {
            if self.nodes[at] < f {
                at = behind_smaller(self.nodes, at + 1, end, f);
                continue;
            }
            let Verdict::Greater = self.exceeds(ready, cells, i, at) else {
                return false;
            };
            at += usize::from(self.sizes[at]);
        }
        true
    }

    // L3: the first two arguments that differ of the terms at i and j, which have the same symbol.
    #[cycle(comparison)]
    fn first_difference(
        &self,
        ready: &mut [u8; Limits::NODES],
        cells: &mut [u8],
        i: usize,
        j: usize,
    ) -> Difference
        requires settled_cells { SettledCells self.now.nodes.now self.now.sizes.now self.now.values.now ready.old cells.old }
        requires has_term { HasTerm self.now.nodes.now self.now.sizes.now self.now.values.now i × (get_or self.now.nodes.now i 0 < first_variable) }
        requires has_term_2 { HasTerm self.now.nodes.now self.now.sizes.now self.now.values.now j × (get_or self.now.nodes.now j 0 ≡ get_or self.now.nodes.now i 0) × (position_count ≤ j) }
        ensures finds_difference { FindsDifference self.now.nodes.now self.now.sizes.now self.now.values.now i j result }
        ensures settled_cells_2 { SettledCells self.now.nodes.now self.now.sizes.now self.now.values.now ready.new cells.new }
    {
        let mut first = arguments_of(self.sizes, i);
        let mut second = arguments_of(self.sizes, j);
        while first.from < first.end {
            if second.end <= second.from {
                return Difference {
                    verdict: Verdict::Smaller,
                    first,
                    second,
                };
            }
            let verdict = self.exceeds(ready, cells, first.from, second.from);
            first = other_arguments(self.sizes, first);
            second = other_arguments(self.sizes, second);
            let Verdict::Equal = verdict else {
                return Difference {
                    verdict,
                    first,
                    second,
                };
            };
        }
        if second.from < second.end {
            return Difference {
                verdict: Verdict::Smaller,
                first,
                second,
            };
        }
        Difference {
            verdict: Verdict::Equal,
            first,
            second,
        }
    }

    // L3: the verdict of the terms at i and j, which have the same symbol.
    #[cycle(comparison)]
    fn compare_arguments(
        &self,
        ready: &mut [u8; Limits::NODES],
        cells: &mut [u8],
        i: usize,
        j: usize,
    ) -> Verdict
        requires settled_cells { SettledCells self.now.nodes.now self.now.sizes.now self.now.values.now ready.old cells.old }
        requires has_term { HasTerm self.now.nodes.now self.now.sizes.now self.now.values.now i × (get_or self.now.nodes.now i 0 < first_variable) }
        requires has_term_2 { HasTerm self.now.nodes.now self.now.sizes.now self.now.values.now j × (get_or self.now.nodes.now j 0 ≡ get_or self.now.nodes.now i 0) × (position_count ≤ j) }
        ensures compares { Compares self.now.nodes.now self.now.sizes.now self.now.values.now i j result }
        ensures settled_cells_2 { SettledCells self.now.nodes.now self.now.sizes.now self.now.values.now ready.new cells.new }
    {
        let difference = self.first_difference(ready, cells, i, j);
        match difference.verdict {
            Verdict::Equal => Verdict::Equal,
            // L1 is left, and the term at j exceeds the arguments of the one at i before these.
            Verdict::Smaller => {
                let row = difference.first;
                greater_if(self.argument_reaches(ready, cells, row, j))
            }
            Verdict::Greater => {
                let row = difference.second;
                greater_if(self.exceeds_arguments(ready, cells, i, row))
            }
        }
    }
}
