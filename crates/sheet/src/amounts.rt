// The amounts of strands: potentials, or concentrations, whose logarithms stand for potentials.
ghost use Rattle.std.specs.Prelude.{◌≡◌, not};
ghost use Rattle.logarithm.specs.Near.{has_logarithm};
ghost use Rattle.sheet.specs.Amounts.{logarithm_in, potential_of, is_thin, thin_in};
ghost use Rattle.sheet.specs.Place.{row_of_strand};

use crate::said::Sheet;
use logarithm::ln;
use statements::statement::Row;

// The logarithm of a concentration; 0.0 where it has none.
fn logarithm_in(concentration: f64) -> f64
    ensures { result ≡ logarithm_in concentration }
{
    ln(concentration).unwrap_or(0.0)
}

// Whether a concentration has no logarithm.
fn has_none(concentration: f64) -> bool
    ensures { result ≡ not (has_logarithm concentration) }
{
    ln(concentration).is_err()
}

// The potential that a row gives.
pub(crate) fn potential_of(row: &Row) -> f64
    ensures { result ≡ potential_of row.now }
{
    let amount = row.numbers[0];
    if row.concentration {
        logarithm_in(amount)
    } else {
        amount
    }
}

// Whether a row gives a concentration that has no logarithm.
fn is_thin(row: &Row) -> bool
    ensures { result ≡ is_thin row.now }
{
    row.concentration && has_none(row.numbers[0])
}

impl Sheet<'_> {
    // Whether the row of a strand gives a concentration that has no logarithm.
    pub fn is_thin(&self, strand: usize) -> bool
        ensures { result ≡ thin_in (row_of_strand self.now.rows.now strand) }
    {
        self.row_of_strand(strand).is_some_and(|row| is_thin(&row))
    }
}
