// The words of a line, and what a word says.

ghost use Rattle.std.specs.Prelude.{◌≡◌, ◌⊎◌, ◌*◌, ◌<◌, ◌≤◌, [], ◌↔◌, length, All, IsTrue, IsSome, IsNone, IsErr, IfSome, OnSome, Ok, drop, cond};
ghost use Rattle.std.specs.Char.{is_ascii_digit};
ghost use Rattle.std.specs.Iterator.{at_most};
ghost use Rattle.std.specs.List.{list_all, position};
ghost use Rattle.hex.specs.Hex.{decode_of};
ghost use Rattle.rehearse_words.specs.Blanks.{is_blank};
ghost use Rattle.rehearse_words.specs.Words.{behind_mark, behind_word, first_word, is_number, number_in, starts_with, word_end, word_start};

use arrayvec::ArrayVec;

// White space of ASCII other than the line's end.
pub fn is_blank(byte: u8) -> bool
    ensures { result ≡ is_blank byte }
{
    matches!(byte, 9 | 11..=13 | 28..=32)
}

// Where a line's first word begins.
fn word_start(line: &[u8]) -> Option<usize>
    ensures { result ≡ word_start line.now }
{
    line.iter().position(|b| !is_blank(*b))
}

fn first_blank(text: &[u8]) -> Option<usize>
    ensures { result ≡ position is_blank text.now }
{
    text.iter().position(|b| is_blank(*b))
}

// Where a word ends: at a blank, or with the line.
fn word_end(text: &[u8]) -> usize
    ensures end { result ≡ word_end text.now }
    ensures inside { result ≤ length text.now }
{
    first_blank(text).unwrap_or(text.len())
}

fn past_first(text: &[u8]) -> &[u8]
    ensures { result.now ≡ drop 1 text.now }
{
    match text {
        [_, rest @ ..] => rest,
        [] => text,
    }
}

// The words of a line that are not read yet.
#[derive(Clone, Copy)]
pub struct Words<'a> {
    pub rest: &'a [u8],
}

impl<'a> Iterator for Words<'a> {
    type Item = &'a [u8];

    // No word is left where all bytes are blanks.
    ghost next_gives = { λ s r t. (IsNone r ↔ All (λ b. IsTrue (is_blank b)) s.rest.now)
        × IfSome r (λ w. (w.now ≡ first_word s.rest.now) × (t.rest.now ≡ behind_word s.rest.now)) };

    ghost remaining = { λ s. at_most (length s.rest.now) };

    fn next(&mut self) -> Option<&'a [u8]> {
        let from = word_start(self.rest)?;
        let (_, line) = self.rest.split_at(from);
        let (word, behind) = line.split_at(word_end(line));
        self.rest = past_first(behind);
        Some(word)
    }
}

impl<'a> Words<'a> {
    // The next word is a number.
    pub fn number(&mut self) -> Option<u32>
        ensures number { result ≡ number_in (first_word self.old.rest.now) }
        ensures rest { OnSome result (self.new.rest.now ≡ behind_word self.old.rest.now) }
    {
        number(self.next()?)
    }

    // The next word is some bytes in hexadecimal.
    pub fn bytes<const N: usize>(&mut self) -> Option<ArrayVec<u8, N>>
        ensures bytes { IfSome result (λ bytes. decode_of (first_word self.old.rest.now) ≡ Ok bytes.items) }
        ensures none { IsNone result → IsErr (decode_of (first_word self.old.rest.now)) ⊎ (2 * N < length (first_word self.old.rest.now)) ⊎ (first_word self.old.rest.now ≡ []) }
        ensures rest { OnSome result (self.new.rest.now ≡ behind_word self.old.rest.now) }
    {
        bytes(self.next()?)
    }

    // The next word is this one.
    pub(crate) fn expect(&mut self, word: &[u8]) -> Option<()> {
        (self.next()? == word).then_some(())
    }

    // Whether the next word is this one, which is then taken.
    pub(crate) fn take_if(&mut self, word: &[u8]) -> bool
        ensures word { result ≡ starts_with word.now self.old.rest.now }
        ensures rest { self.new.rest.now ≡ behind_mark word.now self.old.rest.now }
    {
        let mut ahead = *self;
        let Some(next) = ahead.next() else {
            return false;
        };
        let is_next = next == word;
        if is_next {
            *self = ahead;
        }
        is_next
    }

    // The next word is one of two: that for no, or that for yes.
    pub(crate) fn either(&mut self, no: &[u8], yes: &[u8]) -> Option<bool>
        ensures word { IfSome result (λ answer. first_word self.old.rest.now ≡ cond answer yes.now no.now) }
        ensures rest { OnSome result (self.new.rest.now ≡ behind_word self.old.rest.now) }
    {
        let word = self.next()?;
        if word == no {
            Some(false)
        } else if word == yes {
            Some(true)
        } else {
            None
        }
    }

    // Nothing follows.
    pub fn end(&mut self) -> Option<()>
        ensures { IsSome result ↔ All (λ b. IsTrue (is_blank b)) self.old.rest.now }
    {
        self.next().is_none().then_some(())
    }
}

fn all_digits(word: &[u8]) -> bool
    ensures { result ≡ list_all is_ascii_digit word.now }
{
    word.iter().all(|b| b.is_ascii_digit())
}

// A number has one to nine digits.
fn is_number(word: &[u8]) -> bool
    ensures { result ≡ is_number word.now }
{
    (1..=9).contains(&word.len()) && all_digits(word)
}

// Digits are text, so that the second `None` is never given; tried with `?`, and the proof did not close.
pub(crate) fn number(word: &[u8]) -> Option<u32>
    ensures { result ≡ number_in word.now }
{
    if !is_number(word) {
        return None;
    }
    match str::from_utf8(word) {
        Ok(digits) => digits.parse().ok(),
        Err(_) => None,
    }
}

// Bytes in hexadecimal, two digits each, N at most.
fn bytes<const N: usize>(word: &[u8]) -> Option<ArrayVec<u8, N>>
    ensures bytes { IfSome result (λ bytes. decode_of word.now ≡ Ok bytes.items) }
    ensures none { IsNone result → IsErr (decode_of word.now) ⊎ (2 * N < length word.now) }
{
    let mut bytes = ArrayVec::from([0u8; N]);
    bytes.truncate(word.len() / 2);
    hex::decode_to_slice(word, bytes.as_mut_slice()).ok()?;
    Some(bytes)
}

// The parts of a word before and after a mark.
pub(crate) fn parted(word: &[u8], mark: u8) -> Option<(&[u8], &[u8])> {
    let at = word.iter().position(|b| *b == mark)?;
    Some((&word[..at], &word[at + 1..]))
}
