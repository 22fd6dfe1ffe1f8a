// Nodes that are passed over because their symbols are smaller than a given one.
ghost use Rattle.std.specs.Prelude.{◌≡◌, ◌↔◌, true, ◌≤◌, length};
ghost use Rattle.cells.specs.ForContracts.Passing.{AllSmaller, BehindSmaller, FirstNotSmaller};

// The nodes that are tested at once.
const BLOCK: usize = 16;

// Whether the symbols from `from` to `end` are all smaller. No branch leaves the loop, so that the compiler tests a block of nodes at once.
fn all_smaller(nodes: &[u8], from: usize, end: usize, symbol: u8) -> bool
    requires { (from ≤ end) × (end ≤ length nodes.now) }
    ensures { (result ≡ true) ↔ AllSmaller nodes.now symbol from end }
{
    let mut all = true;
    for at in from..end {
        all &= nodes[at] < symbol;
    }
    all
}

// A node before which all symbols are smaller, found block by block. The loop counts by `while`: the node where it stops, for the one reason or the other, is the answer.
fn behind_blocks(nodes: &[u8], from: usize, end: usize, symbol: u8) -> usize
    requires { (from ≤ end) × (end ≤ length nodes.now) }
    ensures { BehindSmaller nodes.now symbol from end result }
{
    let mut at = from;
    while at + BLOCK <= end {
        if !all_smaller(nodes, at, at + BLOCK, symbol) {
            return at;
        }
        at += BLOCK;
    }
    at
}

// A node before which all symbols are smaller: half a block on, or `from`.
fn behind_half(nodes: &[u8], from: usize, end: usize, symbol: u8) -> usize
    requires { (from ≤ end) × (end ≤ length nodes.now) }
    ensures { BehindSmaller nodes.now symbol from end result }
{
    let half = from + BLOCK / 2;
    if half <= end && all_smaller(nodes, from, half, symbol) {
        return half;
    }
    from
}

// The first node from `from` to `end` whose symbol is not smaller, or `end`.
pub fn behind_smaller(nodes: &[u8], from: usize, end: usize, symbol: u8) -> usize
    requires { (from ≤ end) × (end ≤ length nodes.now) }
    ensures { FirstNotSmaller nodes.now symbol from end result }
{
    let blocks = behind_blocks(nodes, from, end, symbol);
    let behind = behind_half(nodes, blocks, end, symbol);
    for at in behind..end {
        if symbol <= nodes[at] {
            return at;
        }
    }
    end
}
