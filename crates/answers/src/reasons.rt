// Why a file gives no settled configuration, and what to do about it. The texts hold nothing that a JSON string escapes.
use statements::grammar::Kind;
use statements::statement::Reason;

// Why a file can't be had.
#[derive(Clone, Copy)]
pub enum FileFault {
    NoSuchFile,
    IsAFolder,
    NotAllowed,
    ReadFailed,
    TooLong,
    LongPath,
    // What is read is no plain text.
    ByteOrderMark,
    Utf16,
    ReturnsAlone,
}

// Each reason that is told.
#[derive(Clone, Copy)]
pub enum Why {
    // The file can't be had.
    File(FileFault),
    // A line can't be read.
    Line(Reason),
    // The lines don't make a design.
    NameTwice,
    GivenTwice,
    NoAmbient,
    // A call refuses the design: size.
    TooManyRows,
    TooManyStrands,
    TooManyPositions,
    TooManyEnergies,
    LongName,
    LongSequence,
    NoSuchStrand,
    // base, short, unknown, glues, twice
    NotABase,
    ShortSequence,
    UnknownName,
    TooManyGlues,
    PairTwice,
    // range
    EnergyRange,
    KelvinRange,
    // ambient, potential, dilute, ring, stars
    AmbientRange,
    PotentialRange,
    ConcentrationRange,
    RingSize,
    TwoStars,
    // Whatever else a call may refuse.
    Refused,
}

// Of a file.
fn file_reason(fault: FileFault) -> &'static str {
    match fault {
        FileFault::NoSuchFile => "there is no such file. Check its name",
        FileFault::IsAFolder => "this is a folder. Name the files in it",
        FileFault::NotAllowed => "the file may not be read. Change its permissions",
        FileFault::ReadFailed => "the file could not be read to its end. Try again, or copy it",
        FileFault::TooLong =>
            "the file has more than 1 MiB. Take out comments and what the design does not need",
        FileFault::LongPath =>
            "the file's name is too long for this system. Name it from a folder nearer to it",
        FileFault::ByteOrderMark =>
            "the file begins with a byte order mark. Save it as UTF-8 without one (without BOM)",
        FileFault::Utf16 => "the file is UTF-16, or no text. Save it as UTF-8 without BOM",
        FileFault::ReturnsAlone =>
            "the lines end in carriage returns alone. Save the file with line feeds at the ends of lines",
    }
}

// Of a line that ends too early, by its keyword.
fn early_reason(keyword: &[u8]) -> &'static str {
    match Kind::of(keyword) {
        Some(Kind::Kelvin) => "the line ends too early. It has to be: kelvin T",
        Some(Kind::Celsius) => "the line ends too early. It has to be: celsius T",
        Some(Kind::Ambient) => "the line ends too early. It has to be: ambient RT STRAND SCAFFOLD",
        Some(Kind::Strand) =>
            "the line ends too early. It has to be: strand NAME WEST BOTTOM EAST AMOUNT",
        Some(Kind::Quencher) => "the line ends too early. It has to be: quencher STRAND AMOUNT",
        Some(Kind::Reporter) => "the line ends too early. It has to be: reporter STRAND AMOUNT",
        Some(Kind::EnergyGiven) =>
            "the line ends too early. It has to be: energy GLUE dg DG ds DS, or energy GLUE seq BASES",
        Some(Kind::PairGiven) =>
            "the line ends too early. It has to be: pair GLUE GLUE dg DG ds DS, or pair GLUE GLUE seq BASES",
        Some(Kind::Penalty) => "the line ends too early. It has to be: penalty DG DS",
        _ => "the line ends too early. docs/DESIGN-FILE.md has the words of this statement",
    }
}

// The minus of typography, and the en dash.
const MINUS: &[u8] = b"\xe2\x88\x92";

const DASH: &[u8] = b"\xe2\x80\x93";

// Whether a word has one of them in it.
fn has_typographic_minus(word: &[u8]) -> bool {
    word.windows(3).any(|three| three == MINUS || three == DASH)
}

// Of a line, by the word at fault.
fn line_reason(reason: Reason, word: &[u8]) -> &'static str {
    match reason {
        Reason::NoSuchStatement =>
            "no statement begins with this word. The statements are kelvin, celsius, ambient, strand, quencher, reporter, scaffold, blocked, ring, energy, pair, penalty; # begins a comment",
        Reason::TooFewWords => early_reason(word),
        Reason::TooManyWords =>
            "the statement ends before this word. Take it out, or begin a comment with #",
        Reason::NotANumber | Reason::NotAnAmount if has_typographic_minus(word) =>
            "this minus is that of typography (U+2212), or a dash. Type - in its place",
        Reason::NotANumber =>
            "this is no number. Write a decimal of up to 17 digits, as -1.25 or 3e-7, or 0x and the 16 hexadecimal digits of a double",
        Reason::NotAnAmount =>
            "this is no potential and no concentration. Write a number, as -16.118, or a decimal and behind it, with no blank, M, mM, uM, nM, pM or fM, as 100nM",
        Reason::TooManyDigits =>
            "the number has more than 17 digits from the first that is not 0. Round it, or give its bits as 0x and 16 hexadecimal digits",
        Reason::OutOfReach =>
            "the number has an exponent beyond 999, or a last digit beyond 400 places. Round it",
        Reason::NeitherDgNorSeq => "here stands dg with a number, or seq with bases",
        Reason::NotDs => "after dg and its number stands ds with a number",
        Reason::NotAName => "a name is needed here, and - stands for none",
    }
}

// The reason, and what to do, by the word at fault.
pub(crate) fn reason_text(why: Why, word: &[u8]) -> &'static str {
    match why {
        Why::File(fault) => file_reason(fault),
        Why::Line(reason) => line_reason(reason, word),
        Why::NameTwice => "a strand further up has this name. Give each strand a name of its own",
        Why::GivenTwice => "this was given further up, and is given once. Keep one of the lines",
        Why::NoAmbient => "the file gives no temperature. Add a line as: celsius 37",
        Why::TooManyRows =>
            "the file has more statements than a design of 61 strands, 128 positions and 1024 energies. Split it",
        Why::TooManyStrands =>
            "a design has 61 strands at most. Take out this one and those after it",
        Why::TooManyPositions => "a scaffold has 128 positions at most. Shorten it",
        Why::TooManyEnergies =>
            "a design has 1024 energies at most. Take out those that no glue needs",
        Why::LongName =>
            "a name of a glue has 64 bytes at most, stars counted. Shorten it wherever it stands",
        Why::LongSequence => "a sequence has 256 bases at most. Give dg and ds instead",
        Why::NoSuchStrand => "no strand has this name. Name one of the strands, or - for none",
        Why::NotABase =>
            "a sequence has the letters a, c, g and t alone, in either case. Correct it",
        Why::ShortSequence => "a sequence has 2 bases at least. Correct it, or give dg and ds",
        Why::UnknownName =>
            "no strand has this glue; on the scaffold a glue has no star or one. Correct it, add a strand that has it, or write - for a position with no glue",
        Why::TooManyGlues =>
            "with this strand the glues have more than 31 base names, a and a* being one. Use glues again",
        Why::PairTwice =>
            "an energy for these two glues stands further up; one name stands for itself and its complement. Keep one of the lines",
        Why::EnergyRange =>
            "with the penalty added, dG lies beyond 1024 kcal/mol or dS beyond 8 kcal/mol/K in size. Correct the numbers",
        Why::KelvinRange =>
            "a temperature is 200 to 500 kelvin, or -73.14 to 226.85 celsius. Correct it",
        Why::AmbientRange =>
            "RT is 1/8 to 8 kcal/mol, and an excess is 1024 kelvin at most in size. Correct the numbers",
        Why::PotentialRange =>
            "a potential, the logarithm of a concentration, is 1024 at most in size. Correct it",
        Why::ConcentrationRange => "a concentration is 2^-60 (8.7e-19) to 1024 mol/l. Correct it",
        Why::RingSize => "a ring has 3 positions at least. Add positions, or take this line out",
        Why::TwoStars =>
            "a glue of a strand or an energy ends in one star at most: an even number of stars is none, an odd one is one. Correct it; --archive takes old files",
        Why::Refused => "the call refuses the design",
    }
}
