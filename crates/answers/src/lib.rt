// What is printed of a design file: its settled configuration, a refusal, or why it can't be read.
#![tactic(auto)]

mod draw;
mod names;
mod place;
pub mod print;
pub mod reads;
pub mod reasons;
mod shown;
mod summary;
mod table;
mod words;

ghost use Rattle.std.specs.Prelude.{◌≡◌, cond, eqb, None, Some, OnOk};
ghost use Rattle.answers.specs.Told.{Tells, TellsMore, unreadable_text, refused_text, Settles};

use print::{Printer, Style};
use reads::part;
use reasons::{Why, reason_text};
use reply::Refusal;
use statements::faults::LineFault;
use statements::words::Word;
use std::io;
use std::io::Write;

// A design file: its name, and its text as far as it could be read.
#[derive(Clone, Copy)]
pub struct DesignFile<'a> {
    pub path: &'a [u8],
    pub text: &'a [u8],
}

// Where in a file the reason lies: the line and the word at fault, as far as there are any.
#[derive(Clone, Copy, Default)]
pub struct Spot {
    pub line: Option<usize>,
    pub word: Option<Word>,
}

impl Spot {
    // A word of no bytes is none.
    pub fn at(line: Option<usize>, word: Word) -> Spot
        ensures line { result.line ≡ line }
        ensures word { result.word ≡ cond (eqb word.size 0) None (Some word) }
    {
        let word = (word.size != 0).then_some(word);
        Spot { line, word }
    }
}

// Why a file gives no settled configuration, and where that lies.
#[derive(Clone, Copy)]
pub struct Found {
    pub spot: Spot,
    pub why: Why,
}

impl Found {
    // A reason that lies nowhere in particular.
    pub fn nowhere(why: Why) -> Found
        ensures line { result.spot.line ≡ None }
        ensures word { result.spot.word ≡ None }
        ensures why { result.why ≡ why }
    {
        Found {
            spot: Spot::default(),
            why,
        }
    }

    // The reason in words, and what to do.
    fn reason(&self, text: &[u8]) -> &'static str {
        let word = self.spot.word.unwrap_or_default();
        reason_text(self.why, part(text, word))
    }
}

impl From<LineFault> for Found {
    fn from(other: LineFault) -> Self {
        Found {
            spot: Spot::at(Some(other.line), other.fault.word),
            why: Why::Line(other.fault.reason),
        }
    }
}

// What is printed of a settled design. The glue of each position and the name of each user strand are words of the text; a position without a
// glue has a word of no bytes. A mark of 1 is that of a blocked position.
#[derive(Clone, Copy)]
pub struct SettledDesign<'a> {
    pub text: &'a [u8],
    pub glues: &'a [Word],
    pub strand_names: &'a [Word],
    pub entries: usize,
    // How many states the design has, where so many are counted.
    pub states: Option<u64>,
    pub configuration: &'a [u8],
    pub marks: &'a [u8],
    // Whether the last position stands beside the first.
    pub ring: bool,
    pub energy: f64,
    pub deck: &'a [u32],
}

impl<W: Write> Printer<'_, W> {
    // A file that can't be read, and why, with the other lines of it that can't be.
    pub fn unreadable(
        &mut self,
        style: Style,
        file: DesignFile,
        found: Found,
        others: &[LineFault],
    ) -> io::Result<()>
        ensures { OnOk result (TellsMore (W.contents self.old.out.now) (W.contents self.new.out.now) (unreadable_text style file.entry.path.now file.entry.text.now found.spot)) }
    {
        let reason = found.reason(file.text);
        match style {
            Style::People => self.print_unreadable(file, found.spot, reason, others),
            Style::Json => self.print_json_unreadable(file, found.spot, reason, others),
            Style::Tsv => self.print_unsettled_row(file, None, found.spot, reason),
        }
    }

    // A file whose design is refused, by which number, and why.
    pub fn refused(
        &mut self,
        style: Style,
        file: DesignFile,
        refusal: Refusal,
        found: Found,
    ) -> io::Result<()>
        ensures { OnOk result (Tells (W.contents self.old.out.now) (W.contents self.new.out.now) (refused_text style file.entry.path.now file.entry.text.now refusal found.spot)) }
    {
        let reason = found.reason(file.text);
        match style {
            Style::People => self.print_refused(file, refusal, found.spot, reason),
            Style::Json => self.print_json_refused(file, refusal, found.spot, reason),
            Style::Tsv => {
                let number = refusal.number() as usize;
                self.print_unsettled_row(file, Some(number), found.spot, reason)
            }
        }
    }

    // A file whose design is settled.
    pub fn settled(&mut self, style: Style, path: &[u8], design: &SettledDesign) -> io::Result<()>
        ensures { OnOk result (Settles (W.contents self.old.out.now) (W.contents self.new.out.now) style path.now design.now) }
    {
        match style {
            Style::People => self.print_settled(path, design),
            Style::Json => self.print_json_settled(path, design),
            Style::Tsv => self.print_settled_row(path, design),
        }
    }
}
