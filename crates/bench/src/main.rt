// Document 01's bench table, the lines that are run rather than proved, and the worked examples of the paper and of rgrow's
// documentation. Each answer is compared bit for bit with the sum that the line gives; the file stdout holds what must be written. What a line
// expects is the line's own number, also where the code has a constant for it.
#![tactic(auto)]

use design::{Amounts, Design};
use reply::limits::{CELLS, GLUES, SIDES};
use reply::{Refusal, Refused};
use sdc1d_params::{Build, Copies, LentParameters};
use std::io;
use std::io::Write;
use units::{Ambient, KcalPerMol, Kelvin};
use utils::DgDs;

// A line of the table, and whether it holds.
fn say<W: Write>(out: &mut W, line: &[u8], holds: bool) -> io::Result<()> {
    out.write_all(line)?;
    if holds {
        out.write_all(b": so\n")
    } else {
        out.write_all(b": NOT SO\n")
    }
}

// 2^-30, in kcal/mol.
const NEAR: f64 = 0.0000000009313225746154785;

// The same bits.
fn same(x: f64, y: f64) -> bool {
    doubles::bits(x) == doubles::bits(y)
}

// Whether dG and dS were given, with these bits.
fn is_dg_ds(answer: Result<DgDs, Refusal>, dg: f64, ds: f64) -> bool {
    answer.is_ok_and(|given| same(given.dg.0, dg) && same(given.ds.0, ds))
}

// Whether an energy was given, with these bits.
fn is_dg(answer: Result<KcalPerMol, Refusal>, dg: f64) -> bool {
    answer.is_ok_and(|given| same(given.0, dg))
}

// Whether an energy lies within 2^-30 of this.
fn is_near(answer: Result<KcalPerMol, Refusal>, dg: f64) -> bool {
    answer.is_ok_and(|given| given.0 - dg <= NEAR && dg - given.0 <= NEAR)
}

// The strands that are named; a build adds strand 0, the quencher's and the reporter's.
const USERS: usize = 11;

// The reply to a build of these eleven strands, with 33 glues: 31 of as many names, the letter a once, twice and so on; then that letter 32 times
// by a mark, and none. No scaffold, no entries.
fn named(mark: usize) -> Result<(), Refusal> {
    let strands = [
        1usize, 0, 1, 1, 0, 2, 1, 0, 3, 1, 0, 4, 1, 0, 5, 1, 0, 6, 1, 0, 7, 1, 0, 8, 1, 0, 9, 1, 0,
        10, 1, 0, 11, 1, 0, 12, 1, 0, 13, 1, 0, 14, 1, 0, 15, 1, 0, 16, 1, 0, 17, 1, 0, 18, 1, 0,
        19, 1, 0, 20, 1, 0, 21, 1, 0, 22, 1, 0, 23, 1, 0, 24, 1, 0, 25, 1, 0, 26, 1, 0, 27, 1, 0,
        28, 1, 0, 29, 1, 0, 30, 1, 0, 31, mark, 0, 32, 0, 0, 0,
    ];
    let copies = Copies {
        quencher: None,
        reporter: None,
    };
    let parameters = LentParameters {
        text: b"aaaaaaaaaaaaaaaaaaaaaaaaaaaaaaaa",
        users: USERS,
        strands: &strands,
        scaffold: &[],
        entries: &[],
        energies: &[],
        penalty: DgDs::default(),
        copies,
    };
    let mut strand_glues = [0u8; SIDES * (USERS + 3)];
    let mut scaffold = [0u8; 1];
    let mut dg = [0.0; CELLS];
    let mut ds = [0.0; CELLS];
    sdc1d_params::from_params(
        Build::Ordinary,
        &parameters,
        &mut strand_glues,
        &mut scaffold[0..0],
        &mut dg,
        &mut ds,
    )
}

// The states of a scaffold whose every open position has strand 1 as its one friend.
fn states_of(scaffold: &[u8], marks: &[u8]) -> Result<u64, Refused> {
    let glues = [0u8, 0, 0, 0, 1, 0];
    let mut dg = [0.0; CELLS];
    dg[GLUES + 1] = -2.0;
    let ds = [0.0; CELLS];
    let potentials = [0.0, -1.0];
    let ambient = Ambient::new(0.5, 0.0, 0.0);
    let design = Design::new(
        scaffold,
        marks,
        &glues,
        &dg,
        &ds,
        &potentials,
        Amounts::Potentials,
        ambient,
    );
    sdc1d::number_of_states(&design)
}

// The lines on base names and on counts.
fn limits<W: Write>(out: &mut W) -> io::Result<()> {
    say(
        out,
        b"32 base names: refused, glues",
        named(1) == Err(Refusal::TooManyGlues),
    )?;
    say(out, b"31 base names: built", named(0) == Ok(()))?;
    let twenty = [1u8; 20];
    let open = [0u8; 21];
    say(
        out,
        b"20 positions of one friend: 1,048,576 states",
        states_of(&twenty, &open[..20]) == Ok(1048576),
    )?;
    let more = [1u8; 21];
    say(
        out,
        b"21 positions of one friend: refused, many",
        states_of(&more, &open) == Err(Refusal::TooManyStates.into()),
    )
}

// The lines on sequences and loops.
fn table<W: Write>(out: &mut W) -> io::Result<()> {
    say(
        out,
        b"pair AAAA, TATT: no loop term (dG 0.61 + 0.69 - 1.0, dS -0.0213)",
        is_dg_ds(
            utils::sequence_pair_dg_ds(b"AAAA", b"TATT"),
            0.61 + 0.69 - 1.0,
            -0.0213,
        ),
    )?;
    say(
        out,
        b"internal loop of 30: 6.6",
        is_dg(utils::loop_penalty(30, 0), 6.6),
    )?;
    // 6.6 and R × 310.15 × 2.44 × ln (31 / 30), with R as 0.00198720425864083.
    say(
        out,
        b"internal loop of 31: 6.6493109297, within 2^-30",
        is_near(utils::loop_penalty(31, 0), 6.649310929736642),
    )?;
    say(
        out,
        b"internal loop of 255: refused, loop",
        utils::loop_penalty(255, 0) == Err(Refusal::NoSuchLoop),
    )
}

// The worked examples.
fn examples<W: Write>(out: &mut W) -> io::Result<()> {
    // SantaLucia's duplex CGTTGA / GCAACT in the Rust's mode, which never adds the terminal A.T term: -5.40.
    say(
        out,
        b"CGTTGA: -2.17 - 1.44 - 1.00 - 1.45 - 1.30 + 1.96",
        is_dg_ds(
            utils::string_dna_dg_ds(b"CGTTGA"),
            -2.17 - 1.44 - 1.0 - 1.45 - 1.3 + 1.96,
            -0.0272 - 0.0224 - 0.0213 - 0.0227 - 0.0222 + 0.0057,
        ),
    )?;
    // The same duplex as the paper has it: -5.35.
    say(
        out,
        b"CGTTGA as published: -2.17 - 1.44 - 1.00 - 1.45 - 1.30 + 1.96 + 0.05",
        is_dg_ds(
            utils::published_dna_dg_ds(b"CGTTGA"),
            -2.17 - 1.44 - 1.0 - 1.45 - 1.3 + 1.96 + 0.05,
            -0.0272 - 0.0224 - 0.0213 - 0.0227 - 0.0222 - 0.0057 + 0.0069,
        ),
    )?;
    // A self-complementary duplex with two A.T ends.
    say(
        out,
        b"aT as published: -0.88 + 1.96 + 0.05 + 0.05 + 0.43",
        is_dg_ds(
            utils::published_dna_dg_ds(b"aT"),
            -0.88 + 1.96 + 0.05 + 0.05 + 0.43,
            -0.0204 - 0.0057 + 0.0069 + 0.0069 - 0.0014,
        ),
    )?;
    // rgrow's documentation gives this energy as the same double as -5.8 + 1.96.
    say(
        out,
        b"cgatg at 37 C: -5.8 + 1.96",
        is_dg(utils::sequence_strength(b"cgatg", Kelvin(0.0)), -5.8 + 1.96),
    )
}

// Every line in turn.
fn main(rt: HostRuntime) -> io::Result<()> {
    let mut out = io::writer(&rt);
    table(&mut out)?;
    limits(&mut out)?;
    examples(&mut out)
}
