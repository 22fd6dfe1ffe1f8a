// The questions of L1 and L2, of whole terms. An argument that has the bytes of the other term is found before any pair is compared.
ghost use Rattle.std.specs.Prelude.{◌≤◌, ◌<◌, get_or};
ghost use Rattle.format.specs.Limits.{first_variable, position_count};
ghost use Rattle.cells.specs.ForContracts.Cells.{SettledCells};
ghost use Rattle.comparing.specs.ForContracts.Comparing.{HasTerm, HasTerms, FindsReaching, ComparesWithAll};

use crate::among::among;
use comparing::comparison::Compared;
use format::limits::Limits;
use terms::arguments::Arguments;

// L1: whether one of the terms in the row equals or exceeds the term at j.
pub fn some_reaches(
    compared: &Compared,
    ready: &mut [u8; Limits::NODES],
    cells: &mut [u8],
    row: Arguments,
    j: usize,
) -> bool
    requires settled_cells { SettledCells compared.now.nodes.now compared.now.sizes.now compared.now.values.now ready.old cells.old }
    requires has_terms { HasTerms compared.now.nodes.now compared.now.sizes.now compared.now.values.now row }
    requires has_term { HasTerm compared.now.nodes.now compared.now.sizes.now compared.now.values.now j × (position_count ≤ j) }
    ensures finds_reaching { FindsReaching compared.now.nodes.now compared.now.sizes.now compared.now.values.now row j result }
    ensures settled_cells_2 { SettledCells compared.now.nodes.now compared.now.sizes.now compared.now.values.now ready.new cells.new }
{
    if among(compared.nodes, compared.sizes, row, j) {
        return true;
    }
    compared.argument_reaches(ready, cells, row, j)
}

// L2: whether the term at i exceeds every term in the row. No one function with `some_reaches`: of both only the test by bytes is the same.
pub fn exceeds_all(
    compared: &Compared,
    ready: &mut [u8; Limits::NODES],
    cells: &mut [u8],
    i: usize,
    row: Arguments,
) -> bool
    requires settled_cells { SettledCells compared.now.nodes.now compared.now.sizes.now compared.now.values.now ready.old cells.old }
    requires has_term { HasTerm compared.now.nodes.now compared.now.sizes.now compared.now.values.now i × (get_or compared.now.nodes.now i 0 < first_variable) }
    requires has_terms { HasTerms compared.now.nodes.now compared.now.sizes.now compared.now.values.now row × (position_count ≤ row.from) }
    ensures compares_with_all { ComparesWithAll compared.now.nodes.now compared.now.sizes.now compared.now.values.now i row result }
    ensures settled_cells_2 { SettledCells compared.now.nodes.now compared.now.sizes.now compared.now.values.now ready.new cells.new }
{
    if among(compared.nodes, compared.sizes, row, i) {
        return false;
    }
    compared.exceeds_arguments(ready, cells, i, row)
}
