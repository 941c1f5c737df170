// Designs of a scaffold and strands: their bonds, their friends, and the checks that every call makes of one.
#![tactic(auto)]

pub mod answers;
pub mod bonds;
pub mod checks;
pub mod friends;
pub mod logarithms;
pub mod needed;
pub mod options;
pub mod passed;
pub mod ranges;
pub mod reads;
pub mod tables;
pub mod terms;

ghost use Rattle.std.specs.Prelude.{◌≡◌};
ghost use Rattle.design.specs.Design.{Design, design};
ghost use Rattle.design.specs.Laws.{Doubles};

use std::marker::Model;
use units::Ambient;

// How the strands' amounts are lent: as potentials, which are the logarithms of concentrations, or as concentrations in mol/L.
#[derive(Clone, Copy, PartialEq, Eq, Debug)]
pub enum Amounts {
    Potentials,
    Concentrations,
}

// A design as it is lent: what the Rust reads off `self`, and a mark for each position, which the Rust lacks. Its methods have an answer for every
// content: past the end of a slice they read 0.
#[derive(Drop)]
pub struct Design<'a> {
    // The scaffold's glue at each position.
    pub scaffold: &'a [u8],
    // For each position 0 where it is open, 1 where it is blocked.
    pub marks: &'a [u8],
    // Three glues for each strand: west, bottom, east.
    pub glues: &'a [u8],
    // The dG and the dS table: a row and a column for each glue, row first.
    pub dg: &'a [f64],
    pub ds: &'a [f64],
    // One for each strand.
    pub amounts: &'a [f64],
    pub given: Amounts,
    pub ambient: Ambient,
}

impl<'a> Design<'a> {
    // Out of its parts. As a function of its own it knows that they are doubles, which of a caller's arrays is not known.
    pub fn new(
        scaffold: &'a [u8],
        marks: &'a [u8],
        glues: &'a [u8],
        dg: &'a [f64],
        ds: &'a [f64],
        amounts: &'a [f64],
        given: Amounts,
        ambient: Ambient,
    ) -> Self
        ensures { result ≡ design scaffold.now marks.now glues.now dg.now ds.now amounts.now given ambient }
    {
        Design {
            scaffold,
            marks,
            glues,
            dg,
            ds,
            amounts,
            given,
            ambient,
        }
    }
}

impl<'a> Model for Design<'a> {
    ghost Value = { Design };

    ghost view = { λ d. design d.scaffold.now d.marks.now d.glues.now d.dg.now d.ds.now d.amounts.now d.given d.ambient };

    ghost invariant = { λ d. Doubles (design d.scaffold.now d.marks.now d.glues.now d.dg.now d.ds.now d.amounts.now d.given d.ambient) };
}
