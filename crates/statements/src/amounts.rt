// The amounts of strands.
ghost use Rattle.std.specs.Prelude.{◌≡◌};
ghost use Rattle.statements.specs.Amounts.{unit_of, amount_of};

use decimals::{NumberFault, read_number, read_scaled};

// An amount: a potential, or a concentration in mol/l.
#[derive(Clone, Copy)]
pub struct Amount {
    pub number: f64,
    pub concentration: bool,
}

// The units of a concentration, and the power of ten by which each is smaller than mol/l. For the u of uM stands also the micro sign, or the Greek
// letter. The first that fits counts: M, with which each of the others ends, comes last.
const UNITS: [(&[u8], u8); 8] = [
    (b"mM", 3),
    (b"uM", 6),
    (b"\xc2\xb5M", 6),
    (b"\xce\xbcM", 6),
    (b"nM", 9),
    (b"pM", 12),
    (b"fM", 15),
    (b"M", 0),
];

// The size and the power of the unit with which a word ends.
fn unit_of(word: &[u8]) -> Option<(usize, u8)>
    ensures { result ≡ unit_of word.now }
{
    UNITS
        .iter()
        .find(|(unit, _)| word.ends_with(unit))
        .map(|(unit, power)| (unit.len(), *power))
}

// Reads a word as an amount.
#[tactic(auto, unfolding(crate::specs::Amounts::amount_of))]
pub(crate) fn read_amount(word: &[u8]) -> Result<Amount, NumberFault>
    ensures { result ≡ amount_of word.now }
{
    let Some((size, power)) = unit_of(word) else {
        let number = read_number(word)?;
        return Ok(Amount {
            number,
            concentration: false,
        });
    };
    let number = read_scaled(&word[..word.len().saturating_sub(size)], power)?;
    Ok(Amount {
        number,
        concentration: true,
    })
}
