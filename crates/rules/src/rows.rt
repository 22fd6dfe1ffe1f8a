// The equations of a sheet, each in a row of as many bytes as an equation has positions, and beside each byte the number of nodes of the term that starts there.
ghost use Rattle.std.specs.Prelude.{◌≡◌, length};
ghost use Rattle.sheet.specs.Sheet.{Sheet};
ghost use Rattle.sheet.specs.Reading.{accepted, read};
ghost use Rattle.scanning.specs.ForContracts.Scan.{known_arities};
ghost use Rattle.reading.specs.ForContracts.Seek.{Accepts};
ghost use Rattle.rules.specs.ForContracts.Rows.{row_bytes, RowsAre};

use format::limits::Limits;
use reading::seek::equation_at;
use scanning::known::Known;
use terms::measure::measure;

// The bytes of all rows.
pub const ROWS: usize = Limits::EQUATIONS * Limits::POSITIONS;

// The number is the one of the definitions.
pub fn stated()
    ensures { ROWS ≡ row_bytes }
{}

// The rows as they are lent once they are stored.
#[derive(Clone, Copy)]
pub struct Rows<'a> {
    pub equations: &'a [u8],
    pub lengths: &'a [u8],
}

// Stores every equation of an accepted sheet.
pub fn store_equations(sheet: &[u8], known: Known, equations: &mut [u8], lengths: &mut [u8])
    requires { Accepts sheet.now known × (length equations.old ≡ row_bytes) × (length lengths.old ≡ row_bytes) }
    ensures { (s : Sheet) → read sheet.now ≡ accepted s → RowsAre equations.new lengths.new (known_arities known) s.equations }
{
    let arities = known.arities;
    for e in 0..known.equations {
        let row = e * Limits::POSITIONS;
        let n = equation_at(sheet, known, e, &mut equations[row..]);
        measure(
            &equations[row..],
            &arities[..known.symbols],
            &mut lengths[row..],
            0,
            n,
        );
    }
}
