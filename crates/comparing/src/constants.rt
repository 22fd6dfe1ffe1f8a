// Two terms of which one is a constant: what their symbols tell.
ghost use Rattle.std.specs.Prelude.{◌<◌, length, get_or};
ghost use Rattle.format.specs.Limits.{first_variable};
ghost use Rattle.comparing.specs.ForContracts.Comparing.{TellsConstants};

use ordering::verdict::Verdict;

// The verdict of the terms at two symbol nodes, where there is nothing to ask of arguments: a term exceeds a constant with a smaller symbol, and two constants with the same
// symbol are equal. Such a pair needs no cell.
pub fn tell_constants(nodes: &[u8], sizes: &[u8], i: usize, j: usize) -> Option<Verdict>
    requires i_in_bounds { (i < length nodes.now) × (i < length sizes.now) × (get_or nodes.now i 0 < first_variable) }
    requires j_in_bounds { (j < length nodes.now) × (j < length sizes.now) × (get_or nodes.now j 0 < first_variable) }
    ensures { TellsConstants nodes.now sizes.now i j result }
{
    let f = nodes[i];
    let g = nodes[j];
    if f < g {
        if sizes[i] == 1 {
            return Some(Verdict::Smaller);
        }
        return None;
    }
    if sizes[j] == 1 {
        if g < f {
            return Some(Verdict::Greater);
        }
        if sizes[i] == 1 {
            return Some(Verdict::Equal);
        }
    }
    None
}
