// What is remembered of the lines that are read.
ghost use Rattle.std.specs.Prelude.{◌≡◌, ◌≤◌, length};
ghost use Rattle.scanning.specs.ForContracts.Scan.{known_arities};
ghost use Rattle.scanning.specs.ForContracts.Known.{none_known};

use format::limits::Limits;

// The symbols' arities and their count; for each equation how many variables there are up to its highest; how many equations and tasks.
// No symbols: no line is passed yet. The arrays are as long as may be, with counts beside them, since there is no heap.
#[derive(Clone, Copy)]
pub struct Known {
    pub symbols: usize,
    pub arities: [u8; Limits::SYMBOLS],
    pub equations: usize,
    pub widths: [u8; Limits::EQUATIONS],
    pub tasks: usize,
}

impl Known {
    pub fn nothing() -> Known
        ensures { none_known result }
    {
        Known {
            symbols: 0,
            arities: [0u8; Limits::SYMBOLS],
            equations: 0,
            widths: [0u8; Limits::EQUATIONS],
            tasks: 0,
        }
    }

    // The arities of the symbols.
    pub fn symbol_arities(&self) -> &[u8]
        requires { self.now.symbols ≤ length self.now.arities }
        ensures { result.now ≡ known_arities self.now }
    {
        &self.arities[..self.symbols]
    }
}
