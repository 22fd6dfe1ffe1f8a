// The terms of a row, counted.
ghost use Rattle.bindings.specs.ForContracts.Count.{HasRow, CountsRow};

// The number of terms from `k` to `end`.
pub fn row_count(sizes: &[u8], k: usize, end: usize) -> usize
    requires { HasRow sizes.now k end }
    ensures { CountsRow sizes.now k end result }
{
    let mut count = 0;
    let mut t = k;
    while t < end {
        count += 1;
        t += usize::from(sizes[t]);
    }
    count
}
