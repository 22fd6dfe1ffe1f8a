// The nodes of a comparison: the positions of an equation, then those of the subject, and behind them one for the filling (document 02, W5), which counts as one of
// the subject's.
ghost use Rattle.std.specs.Prelude.{◌≡◌, ◌+◌, ◌<◌, length, get_or};
ghost use Rattle.format.specs.Limits.{first_variable, variable_count};
ghost use Rattle.cells.specs.ForContracts.Nodes.{resolved};

use format::limits::Limits;

// The node that stands for the same term and is no variable: a variable gives way to its value.
pub fn resolve(nodes: &[u8], values: &[u8; Limits::VARIABLES], i: usize) -> usize
    requires { (i < length nodes.now) × (get_or nodes.now i 0 < first_variable + variable_count) }
    ensures { result ≡ resolved nodes.now values.now i }
{
    let byte = nodes[i];
    if byte < Limits::FIRST_VARIABLE {
        return i;
    }
    usize::from(values[usize::from(byte - Limits::FIRST_VARIABLE)])
}
