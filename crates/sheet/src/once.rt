// What stands in the file at most once.
ghost use Rattle.std.specs.Prelude.{◌≡◌, ◌<◌, position};
ghost use Rattle.sheet.specs.Once.{number_once, kelvin_of, ambient_of, is_named, copied_of};
ghost use Rattle.sheet.specs.declared.rows.Group.TheVariants as group;

use crate::faults::same_word;
use crate::rows::{Chosen, Group, first_of, word_of};
use statements::grammar::Kind;
use statements::statement::Row;
use statements::words::Word;
use units::Kelvin;
use utils::DgDs;

// The ambient as a file gives it: its temperature, or itself.
#[derive(Clone, Copy)]
pub(crate) enum Ambient {
    At(Kelvin),
    Given(units::Ambient),
}

// Number j of the first row of a group, or 0.0.
fn number_once(rows: &[Row], group: Group, j: usize) -> f64
    requires { j < 3 }
    ensures { result ≡ number_once group rows.now j }
{
    first_of(rows, group).map_or(0.0, |row| row.numbers[j])
}

// 0 °C.
const FREEZING: Kelvin = Kelvin(273.15);

// The kelvin of a temperature in degrees Celsius.
fn kelvin_of(celsius: f64) -> Kelvin
    ensures { result.0 ≡ kelvin_of celsius }
{
    Kelvin(celsius) + FREEZING
}

// The ambient, at a temperature or as three numbers.
pub(crate) fn ambient_of(rows: &[Row]) -> Option<Ambient>
    ensures { result ≡ ambient_of rows.now }
{
    let row = first_of(rows, Group::Ambient)?;
    let [first, second, third] = row.numbers;
    match row.kind {
        Kind::Kelvin => Some(Ambient::At(Kelvin(first))),
        Kind::Celsius => Some(Ambient::At(kelvin_of(first))),
        _ => Some(Ambient::Given(units::Ambient::new(first, second, third))),
    }
}

// The junction penalty; 0.0 twice where there is none.
pub(crate) fn junction_penalty(rows: &[Row]) -> DgDs
    ensures { (result.dg.0 ≡ number_once group.Penalty rows.now 0) × (result.ds.0 ≡ number_once group.Penalty rows.now 1) }
{
    let dg = number_once(rows, Group::Penalty, 0);
    let ds = number_once(rows, Group::Penalty, 1);
    DgDs::new(dg, ds)
}

// The place of the strand with a name among the strands' rows.
fn strand_named(text: &[u8], strands: &Chosen, name: Word) -> Option<usize>
    ensures { result ≡ position (is_named text.now strands.now.rows.now name) strands.now.places.now }
{
    strands.places.iter().position(|row| same_word(text, name, word_of(strands.rows, *row, 0)))
}

// Whose glues the quencher or the reporter, by its group, copies; strands are numbered from 1. A name that no strand has gives strand 0, which
// `from_params` refuses.
pub(crate) fn copied(text: &[u8], strands: &Chosen, group: Group) -> Option<usize>
    ensures { result ≡ copied_of group text.now strands.now.rows.now strands.now.places.now }
{
    match first_of(strands.rows, group) {
        Some(row) if row.words[0].size != 0 => {
            let place = strand_named(text, strands, row.words[0]);
            Some(place.map_or(0, |place| place + 1))
        }
        _ => None,
    }
}
