// The fixed numbers that belong to the sheet, the walk and the calls. What follows from others is computed.
ghost use Rattle.std.specs.Prelude.{◌≡◌};
ghost use Rattle.format.specs.Limits.{max_text, max_line_digits, max_symbols, max_arity, first_variable, variable_count, max_equations, max_tasks, max_side_nodes, position_count, max_task_nodes, filling_node, node_count, row_cells, cell_count, first_equation_line, max_steps, max_elements, max_lines, max_turns, no_position, record_bytes, table_bytes, scratch_bytes, term_bytes, log_bytes};

#[derive(Clone, Copy)]
pub struct Limits;

impl Limits {
    // A text's bytes, and a line's digits.
    pub const TEXT: usize = 16384;

    pub const LINE_DIGITS: usize = 326;

    // Symbols and their arities, variables, equations and tasks.
    pub const SYMBOLS: usize = 16;

    pub const ARITY: u8 = 4;

    pub const FIRST_VARIABLE: u8 = 128;

    pub const VARIABLES: usize = 12;

    pub const EQUATIONS: usize = 16;

    pub const TASKS: usize = 32;

    // The nodes of an equation's side, and the positions of both.
    pub const SIDE_NODES: usize = 32;

    pub const POSITIONS: usize = 2 * Limits::SIDE_NODES;

    // The nodes of a task's terms together, and those of a comparison: an equation's positions, from `SUBJECT` on the subject's, and the filling's. A cell for each pair of them.
    pub const TASK_NODES: usize = 160;

    pub const SUBJECT: usize = Limits::POSITIONS;

    pub const FILLING_NODE: usize = Limits::POSITIONS + Limits::TASK_NODES;

    pub const NODES: usize = Limits::FILLING_NODE + 1;

    // Rows begin at multiples of 16: what is cleared or read at once lies in one line of the processor's cache.
    pub const ROW_CELLS: usize = (Limits::NODES + 15) / 16 * 16;

    pub const CELLS: usize = Limits::NODES * Limits::ROW_CELLS;

    // Frame 01 is line 1, and the equations follow, one a line.
    pub const FIRST_EQUATION_LINE: usize = 2;

    // The steps of a run.
    pub const STEPS: usize = 255;

    // The elements of a line, the lines of a table, and the turns of a walk.
    pub const ELEMENTS: usize = 40;

    pub const LINES: usize = 255;

    pub const TURNS: u16 = 10000;

    // What stands in a record for no binding, and behind the last element.
    pub const NO_POSITION: u8 = 255;

    // The bytes of a record, of the table, of scratch, and of a run's term and log.
    pub const RECORD: usize = Limits::VARIABLES + 1 + 2 * Limits::ELEMENTS;

    pub const TABLE: usize = Limits::LINES * Limits::RECORD;

    pub const SCRATCH: usize = 57344;

    pub const TERM: usize = Limits::TASK_NODES;

    pub const LOG: usize = 3 * Limits::STEPS;

    // Each number is the one of the definitions.
    pub fn stated()
        ensures text { Self.TEXT ≡ max_text }
        ensures line_digits { Self.LINE_DIGITS ≡ max_line_digits }
        ensures symbols { Self.SYMBOLS ≡ max_symbols }
        ensures arity { Self.ARITY ≡ max_arity }
        ensures first_variable { Self.FIRST_VARIABLE ≡ first_variable }
        ensures variables { Self.VARIABLES ≡ variable_count }
        ensures equations { Self.EQUATIONS ≡ max_equations }
        ensures tasks { Self.TASKS ≡ max_tasks }
        ensures side_nodes { Self.SIDE_NODES ≡ max_side_nodes }
        ensures positions { Self.POSITIONS ≡ position_count }
        ensures task_nodes { Self.TASK_NODES ≡ max_task_nodes }
        ensures subject { Self.SUBJECT ≡ position_count }
        ensures filling_node { Self.FILLING_NODE ≡ filling_node }
        ensures nodes { Self.NODES ≡ node_count }
        ensures row_cells { Self.ROW_CELLS ≡ row_cells }
        ensures cells { Self.CELLS ≡ cell_count }
        ensures first_equation_line { Self.FIRST_EQUATION_LINE ≡ first_equation_line }
        ensures steps { Self.STEPS ≡ max_steps }
        ensures elements { Self.ELEMENTS ≡ max_elements }
        ensures lines { Self.LINES ≡ max_lines }
        ensures turns { Self.TURNS ≡ max_turns }
        ensures no_position { Self.NO_POSITION ≡ no_position }
        ensures record { Self.RECORD ≡ record_bytes }
        ensures table { Self.TABLE ≡ table_bytes }
        ensures scratch { Self.SCRATCH ≡ scratch_bytes }
        ensures term { Self.TERM ≡ term_bytes }
        ensures log { Self.LOG ≡ log_bytes }
    {}
}
