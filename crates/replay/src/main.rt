// Replays the list of the Rust's answers, data/answers, whose head says how a line is written and which command made it. Each
// question is asked of the port again, and a line that does not say what the port answers, bit for bit, is a difference; so is a
// line that is not written as the head says. Then it replays data/false, whose every answer was falsified, and has to report each.
#![tactic(auto)]

mod about;
mod built;
mod designs;
mod kind;
mod kinds;
mod numbers;
mod parts;
mod places;
mod says;
mod sets;
mod setting;
mod stored;

use about::Design;
use kind::{KINDS, Kind};
use parts::split_at_first;
use places::read_places;
use reply::limits::{POSITIONS, STRANDS};
use sets::Parameters;
use std::fs::File;
use std::io;
use std::io::Write;
use std::os::unix::fs::FileExt;
use std::rt::Files;

// How many lines were compared, and how many of them differ.
#[derive(Clone, Copy, Default)]
struct Count {
    compared: u64,
    differ: u64,
}

impl Count {
    // One line more.
    fn add(&mut self, agreed: bool) {
        self.compared = self.compared.wrapping_add(1);
        if !agreed {
            self.differ = self.differ.wrapping_add(1);
        }
    }
}

// What lines have set, which questions are about.
#[derive(Drop)]
struct Set {
    design: Design,
    parameters: Parameters,
}

impl Set {
    // Nothing yet.
    fn begun() -> Set {
        Set {
            design: Design::begun(b""),
            parameters: Parameters::begun(b""),
        }
    }

    // A line that is no question: `Some` where it sets something.
    fn set(&mut self, word: &[u8], words: &[u8]) -> Option<()> {
        match self.design.set(word, words) {
            Some(()) => Some(()),
            None => self.parameters.set(word, words),
        }
    }
}

// The counts: one for each kind, and one for lines of no kind.
#[derive(Drop)]
struct Tally {
    kinds: [Count; 20],
    no_kind: Count,
}

// The bytes of a block: a line and what follows it.
const BLOCK: usize = 4096;

// A longer line could be cut short.
const LONGEST_LINE: usize = BLOCK - 1;

// The configuration of a line, read into the lent places.
fn configuration_of<'a>(words: &[u8], room: &'a mut [u8; POSITIONS]) -> &'a [u8] {
    let n = read_places(split_at_first(words, b' ').0, room);
    &room[..n]
}

// `Some` where a line says what the port answers. Calls are lent as many places as there are positions.
fn agrees(kind: Kind, words: &[u8], set: &Set) -> Option<()> {
    let design = set.design.lent();
    let mut entries = [0u8; STRANDS];
    let mut room = [0u8; POSITIONS];
    let n = design.scaffold.len();
    match kind {
        Kind::Sequence => kinds::sequence(words),
        Kind::Pair => kinds::pair(words),
        Kind::Loop => kinds::loop_energy(words),
        Kind::Strength => kinds::strength(words),
        Kind::Strength2 => kinds::strength2(words),
        Kind::Ambient => kinds::ambient(words),
        Kind::Name => kinds::name(words),
        Kind::StrandBond => designs::strand_bond(words, &design),
        Kind::ScaffoldBond => designs::scaffold_bond(words, &design),
        Kind::Friends => designs::friends(words, &design, &mut entries),
        Kind::Count => designs::count(words, &design),
        Kind::State => designs::state(words, &design, &mut room[..n]),
        Kind::StateEnergy => {
            designs::state_energy(words, &design, configuration_of(words, &mut room))
        }
        Kind::ChainEnergy => {
            designs::chain_energy(words, &design, configuration_of(words, &mut room))
        }
        Kind::Search => designs::search(words, &design, &mut room[..n]),
        Kind::Settled => designs::settled(words, &design, &mut room[..n]),
        Kind::DeckRead => stored::read(words),
        Kind::DeckWrite => stored::write(words),
        Kind::DeckMove => stored::move_deck(words),
        Kind::Build => built::build(words, &set.parameters.lent()),
    }
}

// Whether words are parted by single blanks, with none at either end.
fn is_well_formed(line: &[u8]) -> bool {
    line.split(|b| *b == b' ').all(|word| !word.is_empty())
}

// A line that differs, by its number.
fn print_difference<W: Write>(out: &mut W, number: u64, line: &[u8]) -> io::Result<()> {
    write!(out, "line {number} differs: ")?;
    out.write_all(line)?;
    out.write_all(b"\n")
}

// A line that is no question. One that sets nothing is a difference.
fn replay_setting<W: Write>(
    out: &mut W,
    tally: &mut Tally,
    set: &mut Set,
    number: u64,
    line: &[u8],
) -> io::Result<()> {
    let (word, words) = split_at_first(line, b' ');
    let sets = set.set(word, words);
    if is_well_formed(line) && sets.is_some() {
        return Ok(());
    }
    tally.no_kind.add(false);
    print_difference(out, number, line)
}

// A line of the list.
fn replay_line<W: Write>(
    out: &mut W,
    tally: &mut Tally,
    set: &mut Set,
    number: u64,
    line: &[u8],
) -> io::Result<()> {
    if line.starts_with(b"#") {
        return Ok(());
    }
    let (word, words) = split_at_first(line, b' ');
    let Some(kind) = Kind::of(word) else {
        return replay_setting(out, tally, set, number, line);
    };
    let agreed = is_well_formed(line) && agrees(kind, words, set).is_some();
    tally.kinds[kind as usize].add(agreed);
    if agreed {
        return Ok(());
    }
    print_difference(out, number, line)
}

// The line that starts at a place in the file, out of a block that is read there; nothing at the end of the list, which is told where
// it is no such end.
fn next_line<'a, W: Write, F: FileExt>(
    out: &mut W,
    file: &F,
    at: usize,
    block: &'a mut [u8; BLOCK],
) -> io::Result<Option<&'a [u8]>> {
    let Ok(n) = file.read_at(block, at as u64) else {
        out.write_all(b"the list can not be read\n")?;
        return Ok(None);
    };
    if n == 0 {
        return Ok(None);
    }
    let (line, _) = split_at_first(&block[..n], b'\n');
    if LONGEST_LINE < line.len() {
        out.write_all(b"a line of the list is too long\n")?;
        return Ok(None);
    }
    Ok(Some(line))
}

// Every line of the list. A proved loop has to end, and nothing says that a file does: it is given more turns than any list has lines.
fn replay<W: Write, F: FileExt>(out: &mut W, file: &F) -> io::Result<Tally> {
    let mut tally = Tally {
        kinds: [Count::default(); 20],
        no_kind: Count::default(),
    };
    let mut set = Set::begun();
    let mut at: usize = 0;
    for number in 1..u64::MAX {
        let mut block = [0u8; BLOCK];
        let Some(line) = next_line(out, file, at, &mut block)? else {
            break;
        };
        at = at.wrapping_add(line.len()).wrapping_add(1);
        replay_line(out, &mut tally, &mut set, number, line)?;
    }
    Ok(tally)
}

// A count, after what was counted.
fn print_count<W: Write>(out: &mut W, name: &[u8], count: Count) -> io::Result<()> {
    let Count { compared, differ } = count;
    out.write_all(name)?;
    writeln!(out, " {compared} compared, {differ} differ")
}

// The counts of all kinds.
fn summarize<W: Write>(out: &mut W, tally: &Tally) -> io::Result<()> {
    for (name, kind) in KINDS {
        print_count(out, name, tally.kinds[kind as usize])?;
    }
    print_count(out, b"of no kind", tally.no_kind)
}

// Replays the list of this name.
fn replay_list<W: Write, R: Files<File = File>>(rt: &R, out: &mut W, path: &str) -> io::Result<()> {
    let file = File::open(rt, path)?;
    let tally = replay(out, &file)?;
    summarize(out, &tally)
}

// The Rust's answers, then the falsified ones.
fn main(rt: HostRuntime) -> io::Result<()> {
    let mut out = io::writer(&rt);
    replay_list(&rt, &mut out, "answers")?;
    out.write_all(b"of lines that are false:\n")?;
    replay_list(&rt, &mut out, "false")
}
