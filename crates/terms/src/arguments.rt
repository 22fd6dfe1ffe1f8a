// The arguments of a term in prefix form, as a row of nodes.
ghost use Rattle.std.specs.Prelude.{◌≡◌, ◌≤◌, ◌<◌, length};
ghost use Rattle.format.specs.Limits.{node_count};
ghost use Rattle.terms.specs.ForContracts.Arguments.{arguments_at, behind_first};

// The terms from node `from` to node `end`, the last one not among them. They are walked by their sizes, `at += sizes[at]`, in a `while`. An iterator over them would be no plainer: that a size
// stands there and is not 0 is told by what a loop knows of its own terms, and each loop would have to show it once more as what the iterator's `next` asks.
#[derive(Clone, Copy)]
pub struct Arguments {
    pub from: usize,
    pub end: usize,
}

// The arguments of the term at `p`, where `sizes` has the number of nodes of the term that starts at each node.
pub fn arguments_of(sizes: &[u8], p: usize) -> Arguments
    requires { (p < length sizes.now) × (length sizes.now ≤ node_count) }
    ensures { result ≡ arguments_at sizes.now p }
{
    Arguments {
        from: p + 1,
        end: p + usize::from(sizes[p]),
    }
}

// The terms behind the first.
pub fn other_arguments(sizes: &[u8], row: Arguments) -> Arguments
    requires { (row.from < length sizes.now) × (length sizes.now ≤ node_count) }
    ensures { result ≡ behind_first sizes.now row }
{
    let from = row.from;
    Arguments {
        from: from + usize::from(sizes[from]),
        end: row.end,
    }
}
