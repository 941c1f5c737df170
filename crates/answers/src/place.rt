// What is printed of a file that gives no settled configuration: the place of the reason, and the reason.
ghost use Rattle.std.specs.Prelude.{◌≡◌, List, ℕ, OnOk};
ghost use Rattle.std.specs.Io.KnownBytes.{Appends};
ghost use Rattle.answers.specs.Text.{Grows};
ghost use Rattle.answers.specs.Told.{line_text, at_text, found_text, word_value, json_head, json_found, unreadable_text, refused_text};
ghost use Rattle.answers.specs.declared.print.Style.TheVariants as style;

use crate::print::{Printer, Style};
use crate::reads::part;
use crate::summary::comma;
use crate::words::trade_word;
use crate::{DesignFile, Found, Spot};
use reply::Refusal;
use statements::faults::LineFault;
use statements::words::Word;
use std::io;
use std::io::Write;

impl<W: Write> Printer<'_, W> {
    // The line, where there is one.
    fn print_line_of(&mut self, line: Option<usize>) -> io::Result<()>
        ensures { OnOk result (Appends (W.contents self.old.out.now) (W.contents self.new.out.now) (line_text line)) }
    {
        match line {
            Some(line) => write!(self.out, ", line {line}"),
            None => write!(self.out, ""),
        }
    }

    // The word at fault, where there is one.
    fn print_at(&mut self, text: &[u8], word: Option<Word>) -> io::Result<()>
        ensures { OnOk result (Appends (W.contents self.old.out.now) (W.contents self.new.out.now) (at_text text.now word)) }
    {
        match word {
            Some(word) => {
                write!(self.out, ", at ")?;
                self.print_word(Style::People, part(text, word))
            }
            None => write!(self.out, ""),
        }
    }

    // The place of a reason and, on a line of its own, the reason, for people.
    #[tactic(auto, unfolding(crate::specs::Told::found_text))]
    fn print_found(&mut self, text: &[u8], spot: Spot, reason: &str) -> io::Result<()>
        ensures { OnOk result (Appends (W.contents self.old.out.now) (W.contents self.new.out.now) (found_text text.now spot reason.now)) }
    {
        self.print_line_of(spot.line)?;
        self.print_at(text, spot.word)?;
        writeln!(self.out, "\n  {reason}")
    }

    // The word at fault as a value of JSON.
    fn print_word_value(&mut self, text: &[u8], word: Option<Word>) -> io::Result<()>
        ensures { OnOk result (Appends (W.contents self.old.out.now) (W.contents self.new.out.now) (word_value text.now word)) }
    {
        match word {
            Some(word) => {
                write!(self.out, "\"")?;
                self.print_word(Style::Json, part(text, word))?;
                write!(self.out, "\"")
            }
            None => write!(self.out, "null"),
        }
    }

    // The place of a reason and the reason, as fields.
    #[tactic(auto, unfolding(crate::specs::Told::json_found))]
    fn print_json_found(&mut self, text: &[u8], spot: Spot, reason: &str) -> io::Result<()>
        ensures { OnOk result (Appends (W.contents self.old.out.now) (W.contents self.new.out.now) (json_found text.now spot reason.now)) }
    {
        write!(self.out, "\"line\":")?;
        self.print_count_or_null(spot.line)?;
        write!(self.out, ",\"word\":")?;
        self.print_word_value(text, spot.word)?;
        write!(self.out, ",\"reason\":\"{reason}\"")
    }

    // `{"file":"NAME","reply":`
    #[tactic(auto, unfolding(crate::specs::Told::json_head))]
    pub(crate) fn print_json_head(&mut self, path: &[u8]) -> io::Result<()>
        ensures { OnOk result (Appends (W.contents self.old.out.now) (W.contents self.new.out.now) (json_head path.now)) }
    {
        write!(self.out, "{{\"file\":")?;
        self.print_json_text(path)?;
        write!(self.out, ",\"reply\":")
    }

    // Another line that can't be read, for people.
    fn print_other(&mut self, text: &[u8], other: LineFault) -> io::Result<()>
        ensures { OnOk result (Grows (W.contents self.old.out.now) (W.contents self.new.out.now)) }
    {
        let found = Found::from(other);
        let line = other.line;
        write!(self.out, "  line {line}")?;
        self.print_at(text, found.spot.word)?;
        let reason = found.reason(text);
        writeln!(self.out, "\n  {reason}")
    }

    // The other lines that can't be read, for people.
    fn print_others(&mut self, text: &[u8], others: &[LineFault]) -> io::Result<()>
        ensures { OnOk result (Grows (W.contents self.old.out.now) (W.contents self.new.out.now)) }
    {
        for other in others {
            self.print_other(text, *other)?;
        }
        Ok(())
    }

    // Another line that can't be read, as an object of a list by its place.
    fn print_json_other(&mut self, text: &[u8], i: usize, other: LineFault) -> io::Result<()>
        ensures { OnOk result (Grows (W.contents self.old.out.now) (W.contents self.new.out.now)) }
    {
        let comma = comma(i);
        write!(self.out, "{comma}{{")?;
        let found = Found::from(other);
        self.print_json_found(text, found.spot, found.reason(text))?;
        write!(self.out, "}}")
    }

    // The other lines that can't be read, as a list.
    fn print_json_others(&mut self, text: &[u8], others: &[LineFault]) -> io::Result<()>
        ensures { OnOk result (Grows (W.contents self.old.out.now) (W.contents self.new.out.now)) }
    {
        for (i, other) in others.iter().enumerate() {
            self.print_json_other(text, i, *other)?;
        }
        Ok(())
    }

    // A file that can't be read, for people.
    #[tactic(auto, unfolding(crate::specs::Told::unreadable_text))]
    pub(crate) fn print_unreadable(
        &mut self,
        file: DesignFile,
        spot: Spot,
        reason: &str,
        others: &[LineFault],
    ) -> io::Result<()>
        ensures { OnOk result ((more : List ℕ) × Appends (W.contents self.old.out.now) (W.contents self.new.out.now) (unreadable_text style.People file.entry.path.now file.entry.text.now spot reason.now more)) }
    {
        self.print_bytes(Style::People, file.path)?;
        write!(self.out, "\n  unreadable")?;
        self.print_found(file.text, spot, reason)?;
        self.print_others(file.text, others)
    }

    // As one object, on a line of its own.
    #[tactic(auto, unfolding(crate::specs::Told::unreadable_text))]
    pub(crate) fn print_json_unreadable(
        &mut self,
        file: DesignFile,
        spot: Spot,
        reason: &str,
        others: &[LineFault],
    ) -> io::Result<()>
        ensures { OnOk result ((more : List ℕ) × Appends (W.contents self.old.out.now) (W.contents self.new.out.now) (unreadable_text style.Json file.entry.path.now file.entry.text.now spot reason.now more)) }
    {
        self.print_json_head(file.path)?;
        write!(self.out, "null,")?;
        self.print_json_found(file.text, spot, reason)?;
        write!(self.out, ",\"others\":[")?;
        self.print_json_others(file.text, others)?;
        writeln!(self.out, "]}}")
    }

    // A file whose design is refused, for people.
    #[tactic(auto, unfolding(crate::specs::Told::refused_text))]
    pub(crate) fn print_refused(
        &mut self,
        file: DesignFile,
        refusal: Refusal,
        spot: Spot,
        reason: &str,
    ) -> io::Result<()>
        ensures { OnOk result (Appends (W.contents self.old.out.now) (W.contents self.new.out.now) (refused_text style.People file.entry.path.now file.entry.text.now refusal spot reason.now)) }
    {
        let number = refusal.number();
        let word = trade_word(refusal);
        self.print_bytes(Style::People, file.path)?;
        write!(self.out, "\n  refused {number} ({word})")?;
        self.print_found(file.text, spot, reason)
    }

    // As one object, on a line of its own.
    #[tactic(auto, unfolding(crate::specs::Told::refused_text))]
    pub(crate) fn print_json_refused(
        &mut self,
        file: DesignFile,
        refusal: Refusal,
        spot: Spot,
        reason: &str,
    ) -> io::Result<()>
        ensures { OnOk result (Appends (W.contents self.old.out.now) (W.contents self.new.out.now) (refused_text style.Json file.entry.path.now file.entry.text.now refusal spot reason.now)) }
    {
        let number = refusal.number();
        let word = trade_word(refusal);
        self.print_json_head(file.path)?;
        write!(self.out, "{number},\"refused\":\"{word}\",")?;
        self.print_json_found(file.text, spot, reason)?;
        writeln!(self.out, "}}")
    }
}
