// How bytes of a file, or of its name, are shown: text as it is, anything else byte by byte.
ghost use Rattle.std.specs.Prelude.{◌≡◌, length, MatchOption, OnOk};
ghost use Rattle.std.specs.Io.KnownBytes.{Appends};
ghost use Rattle.answers.specs.Shown.{is_continuation, is_control, has_control, is_text, is_printable, is_quote, is_itself, IsFirstRun, byte_text, run_text, shown_bytes, is_inside, cut, word_text, json_text};

use crate::print::{Printer, Style};
use crate::reads::first;
use std::io;
use std::io::Write;
use std::str::from_utf8;

// A byte that goes on with a character.
fn is_continuation(byte: u8) -> bool
    ensures { result ≡ is_continuation byte }
{
    (128..192).contains(&byte)
}

// Whether a byte ends a control character, by the byte before it.
fn is_control(before: u8, byte: u8) -> bool
    ensures { result ≡ is_control before byte }
{
    byte < 32 || byte == 127 || (before == 194 && byte < 160)
}

// Whether some character is a control character. Without an early return many bytes are looked at at once.
fn has_control(bytes: &[u8]) -> bool
    ensures { result ≡ has_control 0 bytes.now }
{
    let mut before = 0;
    let mut found = false;
    for byte in bytes {
        found |= is_control(before, *byte);
        before = *byte;
    }
    found
}

// Well-formed UTF-8 with no control character.
fn is_text(bytes: &[u8]) -> bool
    ensures { result ≡ is_text bytes.now }
{
    match from_utf8(bytes) {
        Ok(_) => !has_control(bytes),
        Err(_) => false,
    }
}

// A printable byte of ASCII.
fn is_printable(byte: u8) -> bool
    ensures { result ≡ is_printable byte }
{
    (32..127).contains(&byte)
}

// A byte that JSON escapes.
fn is_quote(byte: u8) -> bool
    ensures { result ≡ is_quote byte }
{
    byte == b'"' || byte == b'\\'
}

// Whether a byte stands for itself.
fn is_itself(style: Style, as_text: bool, byte: u8) -> bool
    ensures { result ≡ is_itself style as_text byte }
{
    match style {
        Style::Json if is_quote(byte) => false,
        _ => as_text || is_printable(byte),
    }
}

// The first byte, and those behind it that stand for themselves.
fn first_run(style: Style, as_text: bool, bytes: &[u8]) -> Option<&[u8]>
    ensures { MatchOption result (length bytes.now ≡ 0) (λ run. IsFirstRun style as_text bytes.now run.now) }
{
    bytes
        .chunk_by(|_, byte| is_itself(style, as_text, *byte))
        .next()
}

// Whether a character goes on at a place.
fn is_inside(bytes: &[u8], place: usize) -> bool
    ensures { result ≡ is_inside bytes.now place }
{
    match bytes.get(place) {
        Some(byte) => is_continuation(*byte),
        None => false,
    }
}

// How much of a long word is shown: 64 bytes, or fewer where a character would be cut.
fn cut(bytes: &[u8]) -> usize
    ensures { result ≡ cut bytes.now }
{
    if !is_inside(bytes, 64) {
        return 64;
    }
    if !is_inside(bytes, 63) {
        return 63;
    }
    if !is_inside(bytes, 62) {
        return 62;
    }
    61
}

// How many characters are seen of bytes.
pub(crate) fn width(bytes: &[u8]) -> usize {
    let as_text = is_text(bytes);
    let mut sum = 0usize;
    for byte in bytes {
        sum = sum.wrapping_add(byte_width(*byte, as_text));
    }
    sum
}

// How wide a byte is: in a text a character is as wide as its first byte; else a byte is itself, or \x and two digits.
fn byte_width(byte: u8, as_text: bool) -> usize {
    if as_text {
        return usize::from(!is_continuation(byte));
    }
    if is_printable(byte) { 1 } else { 4 }
}

impl<W: Write> Printer<'_, W> {
    // A byte of a text, or of what is none.
    #[tactic(auto, unfolding(crate::specs::Shown::byte_text))]
    fn print_byte(&mut self, style: Style, as_text: bool, byte: u8) -> io::Result<()>
        ensures { OnOk result (Appends (W.contents self.old.out.now) (W.contents self.new.out.now) (byte_text style as_text byte)) }
    {
        match style {
            Style::Json if is_quote(byte) => self.out.write_all(&[b'\\', byte]),
            _ if as_text || is_printable(byte) => self.out.write_all(&[byte]),
            Style::Json => write!(self.out, "\\u00{byte:02x}"),
            Style::People => write!(self.out, "\\x{byte:02x}"),
            Style::Tsv => write!(self.out, "\\x{byte:02x}"),
        }
    }

    // A byte, and at once those behind it, which stand for themselves.
    fn print_run(&mut self, style: Style, as_text: bool, run: &[u8]) -> io::Result<()>
        ensures { OnOk result (Appends (W.contents self.old.out.now) (W.contents self.new.out.now) (run_text style as_text run.now)) }
    {
        match run {
            [] => Ok(()),
            [byte] => self.print_byte(style, as_text, *byte),
            [byte, plain @ ..] => {
                self.print_byte(style, as_text, *byte)?;
                self.out.write_all(plain)
            }
        }
    }

    // Bytes of a file, or of its name.
    #[tactic(auto, unfolding(crate::specs::Shown::shown_bytes))]
    pub(crate) fn print_bytes(&mut self, style: Style, bytes: &[u8]) -> io::Result<()>
        ensures { OnOk result (Appends (W.contents self.old.out.now) (W.contents self.new.out.now) (shown_bytes style bytes.now)) }
    {
        let as_text = is_text(bytes);
        let mut rest = bytes;
        // A proof sees no `for` over `chunk_by` where W is a parameter.
        while let Some(run) = first_run(style, as_text, rest) {
            self.print_run(style, as_text, run)?;
            rest = &rest[run.len()..];
        }
        Ok(())
    }

    // The same as a JSON text, between its quotes.
    #[tactic(auto, unfolding(crate::specs::Shown::json_text))]
    pub(crate) fn print_json_text(&mut self, bytes: &[u8]) -> io::Result<()>
        ensures { OnOk result (Appends (W.contents self.old.out.now) (W.contents self.new.out.now) (json_text bytes.now)) }
    {
        write!(self.out, "\"")?;
        self.print_bytes(Style::Json, bytes)?;
        write!(self.out, "\"")
    }

    // A word at fault, its beginning where it is long.
    #[tactic(auto, unfolding(crate::specs::Shown::word_text))]
    pub(crate) fn print_word(&mut self, style: Style, word: &[u8]) -> io::Result<()>
        ensures { OnOk result (Appends (W.contents self.old.out.now) (W.contents self.new.out.now) (word_text style word.now)) }
    {
        if word.len() <= 64 {
            return self.print_bytes(style, word);
        }
        self.print_bytes(style, first(word, cut(word)))?;
        write!(self.out, "...")
    }
}
