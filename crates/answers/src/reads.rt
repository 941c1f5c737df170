// Parts of slices, for every place: what is not there is nothing.
ghost use Rattle.std.specs.Prelude.{◌≡◌, ◌+◌, [], length, take, drop, if◌then◌else◌, nat_lt};

use statements::words::Word;

// The bytes of a word; nothing where it would leave the text.
pub fn part(text: &[u8], word: Word) -> &[u8]
    ensures { result.now ≡ (if nat_lt (length text.now) (word.start + word.size) then [] else take word.size (drop word.start text.now)) }
{
    text.get(word.start..)
        .and_then(|rest| rest.get(..word.size))
        .unwrap_or(&[])
}

// The first n bytes, or all where there are fewer.
pub(crate) fn first(text: &[u8], n: usize) -> &[u8]
    ensures { result.now ≡ take n text.now }
{
    text.get(..n).unwrap_or(text)
}
