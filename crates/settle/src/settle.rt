// From a file's text to the configuration in which its strands settle.
ghost use Rattle.std.specs.Prelude.{◌≡◌, ◌≤◌, take, find, None, Some, IfOk, IfErr};
ghost use Rattle.lists.specs.Build.{up_to};
ghost use Rattle.design.specs.Design.{strands};
ghost use Rattle.reply.specs.Number.{answered};
ghost use Rattle.sdc1d_params.specs.Params.{lent_of, outcome_of};
ghost use Rattle.sheet.specs.Rows.{count_of};
ghost use Rattle.sheet.specs.Said.{ambient_said, marks_said, ring_said, glues_shown, strands_shown};
ghost use Rattle.sheet.specs.declared.rows.Group.TheVariants as group;
ghost use Rattle.design.specs.Answers.{count_answer, energy_figures};
ghost use Rattle.statements.specs.Rows.{rows_of};
ghost use Rattle.settle.specs.Searches.{answer_by, entries_by, AnsweredBy};
ghost use Rattle.settle.specs.Told.{Settled, Told, settled, told, unsettled};
ghost use Rattle.settle.specs.Files.{lent_said, built_said, build_told, ambient_from, ambient_told, design_said, room_for, deck_written, states_by, search_reply, search_by, search_told, is_dilute, dilute_told, said_told, design_told, read_fault, sheet_fault, rows_told, lines_told, settle_told};

use crate::encoding::explained;
use crate::found::{
    amount_found, at_line, build_found, design_found, kelvin_found, on_line, too_many,
};
use crate::reads::first;
use answers::reasons::{FileFault, Why};
use answers::{Found, Spot};
use deck::DeckForm;
use design::{Amounts, Design};
use mfe::mfe_configuration;
use reply::limits::{CELLS, POSITIONS, SIDES, STRANDS};
use reply::{Refusal, Refused};
use ring::ring_configuration;
use sdc_common::MOST_STRANDS;
use sdc1d::number_of_states;
use sdc1d_params::Build;
use sheet::faults::{Counts, SheetFault};
use sheet::rows::Group;
use sheet::said::Sheet;
use statements::ReadFault;
use statements::grammar::Kind;
use statements::statement::Row;
use statements::words::Word;
use units::{Ambient, KcalPerMol};

// Why a file gives no settled configuration, and the refusal where a call refuses its design; without one it can't be read.
#[derive(Clone, Copy)]
pub(crate) struct Unsettled {
    pub(crate) found: Found,
    pub(crate) refusal: Option<Refusal>,
}

// Of a file that can't be read.
pub(crate) fn unreadable(found: Found) -> Unsettled
    ensures { (result.refusal ≡ None) × (result.found ≡ found) }
{
    Unsettled {
        found,
        refusal: None,
    }
}

// Of a design that a call refuses.
fn refused(refusal: Refusal, found: Found) -> Unsettled
    ensures { (result.refusal ≡ Some refusal) × (result.found ≡ found) }
{
    Unsettled {
        found,
        refusal: Some(refusal),
    }
}

// A settled design, of each array as much as it has positions or strands. Arrays side by side and none of structs: the search, the deck and the
// printer are lent each as a slice of its own.
#[derive(Clone, Copy)]
pub(crate) struct SettledFile {
    pub(crate) counts: Counts,
    // The glues of the positions and the names of the strands, words of the text.
    pub(crate) glues: [Word; POSITIONS],
    pub(crate) strand_names: [Word; MOST_STRANDS],
    // 1 where a position is blocked.
    pub(crate) marks: [u8; POSITIONS],
    // Whether the last position stands beside the first.
    pub(crate) ring: bool,
    pub(crate) configuration: [u8; POSITIONS],
    pub(crate) energy: KcalPerMol,
    // How many states it has, where so many are counted.
    pub(crate) states: Option<u64>,
    pub(crate) deck: Deck,
}

// The words of a configuration's deck: a first word, and one for each position at most.
#[derive(Clone, Copy)]
pub(crate) struct Deck {
    pub(crate) words: [u32; 1 + POSITIONS],
    pub(crate) count: usize,
}

// Why the lines of a text can't be read.
fn of_lines(fault: ReadFault) -> Unsettled
    ensures { unsettled result.refusal result.found ≡ read_fault fault }
{
    match fault {
        ReadFault::Unreadable(line, fault) => unreadable(Found {
            spot: Spot::at(Some(line), fault.word),
            why: Why::Line(fault.reason),
        }),
        ReadFault::TooManyRows(line) => {
            refused(Refusal::WrongSize, at_line(line, Why::TooManyRows))
        }
        ReadFault::TooLong => unreadable(Found::nowhere(Why::File(FileFault::TooLong))),
    }
}

// Why the lines make no sheet.
fn of_sheet(text: &[u8], fault: SheetFault) -> Unsettled
    ensures { unsettled result.refusal result.found ≡ sheet_fault text.now fault }
{
    match fault {
        SheetFault::NameTwice(line, word) => unreadable(Found {
            spot: Spot::at(Some(line), word),
            why: Why::NameTwice,
        }),
        SheetFault::GivenTwice(line, _) => { unreadable(on_line(text, line, 0, Why::GivenTwice)) }
        SheetFault::TooMany(line, group) => {
            refused(Refusal::WrongSize, at_line(line, too_many(group)))
        }
        SheetFault::NoAmbient => unreadable(Found::nowhere(Why::NoAmbient)),
    }
}

// How many strands a design has beside those of the file: strand 0, the quencher and the reporter.
const OTHERS: usize = 3;

// The glues of the positions.
fn glues_of(sheet: &Sheet) -> [Word; POSITIONS]
    ensures { take sheet.now.counts.positions result ≡ glues_shown (count_of group.Position sheet.now.rows.now) sheet.now.rows.now }
{
    let mut glues = [Word::default(); POSITIONS];
    sheet.glues(&mut glues[..sheet.counts.positions]);
    glues
}

// The names of the strands.
fn names_of(sheet: &Sheet) -> [Word; MOST_STRANDS]
    ensures { take sheet.now.counts.strands result ≡ strands_shown (count_of group.Strand sheet.now.rows.now) sheet.now.rows.now }
{
    let mut names = [Word::default(); MOST_STRANDS];
    sheet.strands(&mut names[..sheet.counts.strands]);
    names
}

// The marks of the positions.
fn marks_of(sheet: &Sheet) -> [u8; POSITIONS]
    ensures { take sheet.now.counts.positions result ≡ marks_said (count_of group.Position sheet.now.rows.now) sheet.now.rows.now }
{
    let mut marks = [0u8; POSITIONS];
    sheet.marks(&mut marks[..sheet.counts.positions]);
    marks
}

// The deck of a configuration, in document 01's form.
fn deck_of(configuration: &[u8]) -> Deck
    ensures { take result.count result.words ≡ deck_written configuration.now }
{
    let mut words = [0u32; 1 + POSITIONS];
    let count = deck::write(DeckForm::Singles, configuration, &mut words).unwrap_or(0);
    Deck { words, count }
}

// The number of states. A design that the search has answered is refused its count only where it has too many.
fn states_of(design: &Design) -> Option<u64>
    ensures { result ≡ states_by (count_answer design.now) }
{
    number_of_states(design).ok()
}

// The lowest configuration of a design: of a ring, or of a chain.
fn lowest(ring: bool, design: &Design, configuration: &mut [u8]) -> Result<KcalPerMol, Refused>
    ensures value { energy_figures result ≡ answer_by ring design.now configuration.old }
    ensures written { configuration.new ≡ entries_by ring design.now configuration.old }
{
    if ring {
        ring_configuration(design, configuration)
    } else {
        mfe_configuration(design, configuration)
    }
}

// The search over a design, with an entry for each position.
fn search(sheet: &Sheet, design: &Design, configuration: &mut [u8]) -> Result<KcalPerMol, Unsettled>
    requires { configuration.old ≡ room_for sheet.now.rows.now }
    ensures energy { IfOk result (λ energy. energy.0 ≡ (answer_by (ring_said sheet.now.rows.now) design.now (room_for sheet.now.rows.now)).figure) }
    ensures written { configuration.new ≡ entries_by (ring_said sheet.now.rows.now) design.now (room_for sheet.now.rows.now) }
    ensures goes_on { IfOk result (λ _. (s : Settled) → search_by (search_reply sheet.now.rows.now design.now) sheet.now.text.now sheet.now.rows.now s ≡ settled s) }
    ensures ends { IfErr result (λ u. (s : Settled) → search_by (search_reply sheet.now.rows.now design.now) sheet.now.text.now sheet.now.rows.now s ≡ unsettled u.refusal u.found) }
{
    match lowest(sheet.is_ring(), design, configuration) {
        Ok(energy) => Ok(energy),
        Err(given) => Err(refused(given.refusal, design_found(sheet, given))),
    }
}

// The search over a design, and what is shown of it.
fn searched(sheet: &Sheet, design: &Design) -> Result<SettledFile, Unsettled>
    ensures told { told result ≡ search_told sheet.now.text.now sheet.now.rows.now design.now }
    ensures lowest { AnsweredBy (ring_said sheet.now.rows.now) design.now (room_for sheet.now.rows.now) }
{
    design.hold_doubles();
    let mut configuration = [0u8; POSITIONS];
    let energy = search(sheet, design, &mut configuration[..sheet.counts.positions])?;
    Ok(SettledFile {
        counts: sheet.counts,
        glues: glues_of(sheet),
        strand_names: names_of(sheet),
        marks: marks_of(sheet),
        ring: sheet.is_ring(),
        configuration,
        energy,
        states: states_of(design),
        deck: deck_of(&configuration[..sheet.counts.positions]),
    })
}

// The first strand that is somewhere a friend, and whose concentration has no logarithm.
fn first_dilute(sheet: &Sheet, design: &Design) -> Option<u8>
    requires { strands design.now ≤ 64 }
    ensures { result ≡ find (is_dilute sheet.now.rows.now design.now) (up_to (strands design.now)) }
{
    (0..design.strands() as u8).find(|strand| sheet.is_thin(usize::from(*strand))
        && design.is_friend_somewhere(*strand))
}

// The concentrations of a design.
fn concentrations(sheet: &Sheet, design: &Design) -> Result<(), Unsettled>
    requires { strands design.now ≤ 64 }
    ensures goes_on { IfOk result (λ _. (after : Told) → dilute_told sheet.now.text.now sheet.now.rows.now design.now after ≡ after) }
    ensures ends { IfErr result (λ u. (after : Told) → dilute_told sheet.now.text.now sheet.now.rows.now design.now after ≡ unsettled u.refusal u.found) }
{
    match first_dilute(sheet, design) {
        None => Ok(()),
        Some(strand) => {
            let found = amount_found(sheet, usize::from(strand));
            Err(refused(Refusal::TooDilute, found))
        }
    }
}

// A design, its concentrations and the search.
fn said(sheet: &Sheet, design: &Design) -> Result<SettledFile, Unsettled>
    requires { strands design.now ≤ 64 }
    ensures told { told result ≡ said_told sheet.now.text.now sheet.now.rows.now design.now }
    ensures lowest { IfOk result (λ _. AnsweredBy (ring_said sheet.now.rows.now) design.now (room_for sheet.now.rows.now)) }
{
    concentrations(sheet, design)?;
    searched(sheet, design)
}

// The build of a file's design, which is lent zeros.
fn build(
    which: Build,
    sheet: &Sheet,
    strand_glues: &mut [u8],
    scaffold_glues: &mut [u8],
    dg: &mut [f64],
    ds: &mut [f64],
) -> Result<(), Unsettled>
    requires lent { lent_of strand_glues.old scaffold_glues.old dg.old ds.old ≡ lent_said sheet.now.rows.now }
    ensures built { IfOk result (λ _. outcome_of answered strand_glues.new scaffold_glues.new dg.new ds.new ≡ built_said which sheet.now.text.now sheet.now.rows.now) }
    ensures goes_on { IfOk result (λ _. (after : Told) → build_told which sheet.now.text.now sheet.now.rows.now after ≡ after) }
    ensures ends { IfErr result (λ u. (after : Told) → build_told which sheet.now.text.now sheet.now.rows.now after ≡ unsettled u.refusal u.found) }
{
    match sheet.build(which, strand_glues, scaffold_glues, dg, ds) {
        Ok(()) => Ok(()),
        Err(given) => Err(refused(given.refusal, build_found(sheet, given))),
    }
}

// The ambient of a file.
fn ambient_of(sheet: &Sheet) -> Result<Ambient, Unsettled>
    ensures given { IfOk result (λ ambient. ambient ≡ ambient_from (ambient_said sheet.now.rows.now)) }
    ensures goes_on { IfOk result (λ _. (after : Told) → ambient_told sheet.now.text.now sheet.now.rows.now after ≡ after) }
    ensures ends { IfErr result (λ u. (after : Told) → ambient_told sheet.now.text.now sheet.now.rows.now after ≡ unsettled u.refusal u.found) }
{
    match sheet.ambient() {
        Ok(ambient) => Ok(ambient),
        Err(refusal) => Err(refused(refusal, kelvin_found(sheet))),
    }
}

// The design of a file, built and searched.
fn settled(which: Build, sheet: &Sheet) -> Result<SettledFile, Unsettled>
    ensures told { told result ≡ design_told which sheet.now.text.now sheet.now.rows.now }
    ensures lowest { IfOk result (λ _. AnsweredBy (ring_said sheet.now.rows.now) (design_said which sheet.now.text.now sheet.now.rows.now) (room_for sheet.now.rows.now)) }
{
    let counts = sheet.counts;
    let strands = counts.strands + OTHERS;
    let mut strand_glues = [0u8; SIDES * STRANDS];
    let strand_glues = &mut strand_glues[..3 * strands];
    let mut scaffold_glues = [0u8; POSITIONS];
    let scaffold_glues = &mut scaffold_glues[..counts.positions];
    let mut dg = [0.0; CELLS];
    let mut ds = [0.0; CELLS];
    build(which, sheet, strand_glues, scaffold_glues, &mut dg, &mut ds)?;
    let ambient = ambient_of(sheet)?;
    let mut marks = [0u8; POSITIONS];
    let marks = &mut marks[..counts.positions];
    sheet.marks(marks);
    let mut potentials = [0.0; STRANDS];
    let potentials = &mut potentials[..strands];
    sheet.potentials(potentials);
    let design = Design::new(
        scaffold_glues,
        marks,
        strand_glues,
        &dg,
        &ds,
        potentials,
        Amounts::Potentials,
        ambient,
    );
    said(sheet, &design)
}

// The rows of a text.
#[tactic(auto, unfolding(crate::specs::Files::rows_told))]
fn settle_rows(which: Build, text: &[u8], rows: &[Row]) -> Result<SettledFile, Unsettled>
    ensures told { told result ≡ rows_told which text.now rows.now }
    ensures lowest { IfOk result (λ _. AnsweredBy (ring_said rows.now) (design_said which text.now rows.now) (room_for rows.now)) }
{
    match Sheet::of(text, rows) {
        Ok(sheet) => settled(which, &sheet),
        Err(fault) => Err(of_sheet(text, fault)),
    }
}

// The lines of a text.
fn settle_lines(which: Build, text: &[u8]) -> Result<SettledFile, Unsettled>
    ensures told { told result ≡ lines_told which text.now }
    ensures lowest { IfOk result (λ _. AnsweredBy (ring_said (rows_of text.now)) (design_said which text.now (rows_of text.now)) (room_for (rows_of text.now))) }
{
    // More rows than any design has. This array and those above are of a fixed size, as in every crate here: what a design holds is bounded, and no
    // call has to tell that memory could not be had.
    let mut room = [Row::blank(Kind::Kelvin, 0); 2048];
    match statements::read(text, &mut room) {
        Ok(count) => settle_rows(which, text, first(&room, count)),
        Err(fault) => Err(of_lines(fault)),
    }
}

// The text of a file. Where it is settled, the configuration is the lowest that its design has, as a ring where the file says so.
#[tactic(auto, unfolding(crate::specs::Encoding::explained))]
pub(crate) fn settle(which: Build, text: &[u8]) -> Result<SettledFile, Unsettled>
    ensures told { told result ≡ settle_told which text.now }
    ensures lowest { IfOk result (λ _. AnsweredBy (ring_said (rows_of text.now)) (design_said which text.now (rows_of text.now)) (room_for (rows_of text.now))) }
{
    match settle_lines(which, text) {
        Ok(design) => Ok(design),
        Err(ended) => Err(explained(text, ended)),
    }
}
