// The design that lines have set.
ghost use Rattle.std.specs.Prelude.{◌≤◌, length};

use crate::numbers::{decimal, hex};
use crate::parts::split_at_first;
use crate::setting::{set_byte, set_double};
use doubles::double;
use reply::limits::{CELLS, POSITIONS, SIDES, STRANDS};
use units::Ambient;

// The Rust knows no blocked positions: all are open.
const OPEN: [u8; POSITIONS] = [0; POSITIONS];

// Its numbers from the start of each array, and how many positions and strands of them are its own.
#[derive(Drop)]
pub(crate) struct Design {
    scaffold: [u8; POSITIONS],
    glues: [u8; SIDES * STRANDS],
    dg: [f64; CELLS],
    ds: [f64; CELLS],
    potentials: [f64; STRANDS],
    positions: usize,
    strands: usize,
    ambient: Ambient,
    ghost few_positions: { positions ≤ 128 },
    ghost few_strands: { strands ≤ 64 },
}

// A count up to a limit; 0 for a word that is none, and every call on a design refuses one without strands.
pub(crate) fn size(word: &[u8], most: usize) -> usize
    ensures { result ≤ most }
{
    match decimal(word) {
        Some(n) if n as usize <= most => n as usize,
        _ => 0,
    }
}

// A double; a word that is none gives a NaN, which every call refuses.
pub(crate) fn double_of(word: &[u8]) -> f64 {
    hex(word).map_or(0.0 / 0.0, double)
}

impl Design {
    // `POSITIONS STRANDS RT STRAND_EXCESS SCAFFOLD_EXCESS`: all else is 0 until it is set.
    pub(crate) fn begun(words: &[u8]) -> Design {
        let (positions, rest) = split_at_first(words, b' ');
        let (strands, rest) = split_at_first(rest, b' ');
        let (rt, rest) = split_at_first(rest, b' ');
        let (strand_excess, scaffold_excess) = split_at_first(rest, b' ');
        let ambient = exports::designs::ambient(
            double_of(rt),
            double_of(strand_excess),
            double_of(scaffold_excess),
        );
        Design {
            scaffold: [0; POSITIONS],
            glues: [0; SIDES * STRANDS],
            dg: [0.0; CELLS],
            ds: [0.0; CELLS],
            potentials: [0.0; STRANDS],
            positions: size(positions, POSITIONS),
            strands: size(strands, STRANDS),
            ambient,
        }
    }

    // A line that sets a number of the design, or begins a new one: `Some` where it does.
    pub(crate) fn set(&mut self, word: &[u8], words: &[u8]) -> Option<()> {
        match word {
            b"design" => {
                *self = Design::begun(words);
                Some(())
            }
            b"scaffold" => set_byte(words, &mut self.scaffold),
            b"glue" => set_byte(words, &mut self.glues),
            b"potential" => set_double(words, &mut self.potentials),
            b"dg" => set_double(words, &mut self.dg),
            b"ds" => set_double(words, &mut self.ds),
            _ => None,
        }
    }

    // The design as calls are lent it.
    pub(crate) fn lent(&self) -> design::Design<'_>
        ensures { length result.scaffold ≤ 128 }
    {
        let scaffold = &self.scaffold[..self.positions];
        let marks = &OPEN[..self.positions];
        let glues = &self.glues[..SIDES * self.strands];
        let potentials = &self.potentials[..self.strands];
        design::Design::new(
            scaffold,
            marks,
            glues,
            &self.dg,
            &self.ds,
            potentials,
            design::Amounts::Potentials,
            self.ambient,
        )
    }
}
