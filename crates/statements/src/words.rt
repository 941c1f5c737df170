// Lines and words of a text.
ghost use Rattle.std.specs.Prelude.{◌≡◌, ◌∷◌, [], ◌+◌, ◌^◌, ◌≤◌, ◌<◌, length, drop, MatchOption};
ghost use Rattle.std.specs.List.{prefix_len};
ghost use Rattle.std.specs.Iterator.{YieldsFirst, item_count};
ghost use Rattle.statements.specs.Words.{is_blank, words_in, spelled, line_of, lines_from};
ghost use Rattle.statements.specs.inner.Words.{not_newline, not_blank, IsNext};

// A word by its place in the text. In a row a size of 0 stands for no word.
#[derive(Clone, Copy, PartialEq, Eq, Default)]
pub struct Word {
    pub start: usize,
    pub size: usize,
}

impl Word {
    // Where the bytes after the word begin.
    pub(crate) fn end(self) -> usize
        requires { self.start + self.size < 2 ^ 64 }
        ensures { result ≡ self.start + self.size }
    {
        self.start + self.size
    }
}

// How long the line is that a text begins with.
fn line_length(text: &[u8]) -> usize
    ensures { (result ≡ prefix_len not_newline text.now) × (result ≤ length text.now) }
{
    text.iter().take_while(|&&byte| byte != b'\n').count()
}

// The end of the line that begins at a place: the next newline, or the text's end.
fn line_end(text: &[u8], at: usize) -> usize
    requires { at < length text.now }
    ensures { (at ≤ result) × (result ≤ length text.now) × (lines_from at at (drop at text.now) ≡ line_of at result ∷ lines_from (result + 1) (result + 1) (drop (result + 1) text.now)) }
{
    at + line_length(&text[at..])
}

// A line: the text up to its end, so that places count from the text's first byte, where it begins, and its number, from 1.
#[derive(Clone, Copy)]
pub struct NumberedLine<'a> {
    pub text: &'a [u8],
    pub start: usize,
    pub number: usize,
}

// The lines of a text. None follows the last newline.
#[derive(Drop)]
pub struct Lines<'a> {
    text: &'a [u8],
    at: usize,
    number: usize,
    ghost in_text: { (at ≤ length text.now + 1) × (number ≤ at + 1) },
}

impl<'a> Lines<'a> {
    pub fn of(text: &'a [u8]) -> Self
        ensures { (result.text.now ≡ text.now) × (result.at ≡ 0) × (result.number ≡ 1) }
    {
        Lines {
            text,
            at: 0,
            number: 1,
        }
    }
}

impl<'a> Iterator for Lines<'a> {
    ghost use Rattle.statements.specs.inner.Lines.{lines_left, GivesLine};

    type Item = NumberedLine<'a>;

    ghost next_gives = { GivesLine };

    ghost remaining = { item_count lines_left };

    #[tactic(auto, using(crate::proofs::Bytes::lines_past))]
    fn next(&mut self) -> Option<NumberedLine<'a>> {
        if self.text.len() <= self.at {
            return None;
        }
        let end = line_end(self.text, self.at);
        let line = NumberedLine {
            text: &self.text[..end],
            start: self.at,
            number: self.number,
        };
        self.at = end + 1;
        self.number += 1;
        Some(line)
    }
}

// Space, tab and carriage return.
pub fn is_blank(byte: u8) -> bool
    ensures { result ≡ is_blank byte }
{
    matches!(byte, b'\t' | b'\r' | b' ')
}

// How many blanks a text begins with.
fn blanks(text: &[u8]) -> usize
    ensures { (result ≡ prefix_len is_blank text.now) × (result ≤ length text.now) }
{
    text.iter().take_while(|&&byte| is_blank(byte)).count()
}

// How long the word is that a text begins with.
fn word_length(text: &[u8]) -> usize
    ensures { (result ≡ prefix_len not_blank text.now) × (result ≤ length text.now) }
{
    text.iter().take_while(|&&byte| !is_blank(byte)).count()
}

// The byte with which a word begins that is a comment up to the line's end.
const COMMENT: u8 = b'#';

// The first word from `at` on.
pub(crate) fn next_word(line: &[u8], at: usize) -> Option<Word>
    ensures { MatchOption result (words_in line.now at ≡ []) (IsNext line.now at) }
{
    if line.len() <= at {
        return None;
    }
    let start = at + blanks(&line[at..]);
    if start == line.len() || line[start] == COMMENT {
        return None;
    }
    let size = word_length(&line[start..]);
    Some(Word { start, size })
}

// The words of a line from a place on.
#[derive(Drop)]
pub struct Words<'a> {
    line: &'a [u8],
    at: usize,
}

impl<'a> Words<'a> {
    pub fn of(line: &'a [u8], at: usize) -> Self
        ensures { (result.line.now ≡ line.now) × (result.at ≡ at) }
    {
        Words { line, at }
    }
}

impl<'a> Iterator for Words<'a> {
    type Item = Word;

    ghost next_gives = { YieldsFirst (λ words. words_in words.line.now words.at) };

    ghost remaining = { item_count (λ words. words_in words.line.now words.at) };

    fn next(&mut self) -> Option<Word> {
        let word = next_word(self.line, self.at)?;
        self.at = word.end();
        Some(word)
    }
}

// The bytes of a word, as far as they stand in the text.
#[tactic(auto, unfolding(crate::specs::Words::spelled))]
pub fn bytes(text: &[u8], word: Word) -> &[u8]
    ensures { result.now ≡ spelled text.now word }
{
    let rest = text.get(word.start..).unwrap_or(&[]);
    rest.get(..word.size).unwrap_or(rest)
}
