// An argument is split into words at blanks, and a word of tiles into pieces at brackets.
ghost use Rattle.std.specs.Prelude.{◌≡◌, ◌+◌, ◌≤◌, ◌<◌, length};
ghost use Rattle.std.specs.Iterator.{at_most};

use crate::faults::{Misread, Stop};

// The most bytes of an argument.
pub const LONGEST: usize = 512;

// How many bytes a text has before the first behind its first that is one of these.
fn length_before(text: &[u8], ends: &[u8]) -> usize
    requires { 0 < length text.now }
    ensures some { 0 < result }
    ensures within { result ≤ length text.now }
{
    match text[1..].iter().position(|c| ends.contains(c)) {
        Some(i) => i + 1,
        None => text.len(),
    }
}

// ---- parts of a text

// A part of a text, and the place where it begins there.
#[derive(Clone, Copy)]
pub struct Part<'a> {
    pub from: usize,
    pub text: &'a [u8],
}

// What is left of a text, and the place where it begins there.
#[derive(Drop)]
struct Rest<'a> {
    from: usize,
    text: &'a [u8],
}

impl<'a> Rest<'a> {
    // Takes the first n bytes.
    fn take(&mut self, n: usize) -> Part<'a>
        requires { n ≤ length self.old.text.now }
        ensures { length self.new.text.now + n ≡ length self.old.text.now }
    {
        let (text, others) = self.text.split_at(n);
        let part = Part {
            from: self.from,
            text,
        };
        self.from = self.from.saturating_add(n);
        self.text = others;
        part
    }
}

// ---- words of an argument

// Spaces, tabs and new lines are blanks.
fn is_blank(c: u8) -> bool {
    b" \t\n".contains(&c)
}

// How many blanks a text begins with.
fn blanks(text: &[u8]) -> usize
    ensures { result ≤ length text.now }
{
    text.iter().take_while(|c| is_blank(**c)).count()
}

// Does a word go on behind its first bytes, with what follows them? A blank right behind a number does not end a word, unless
// what stands before the blank is a known one.
fn goes_on(start: &[u8], rest: &[u8]) -> bool {
    let [.., last] = start else {
        return false;
    };
    last.is_ascii_digit() & (blanks(rest) < rest.len()) & !known_words::is_known(start)
}

// How many bytes the word has that a text begins with. A `while` over what is left, as it goes on from one blank to the next: a `for` over all bytes
// would have to keep in mind where the last blank was.
fn word_length(text: &[u8]) -> usize
    requires { 0 < length text.now }
    ensures some { 0 < result }
    ensures within { result ≤ length text.now }
{
    let mut rest = text;
    while !rest.is_empty() {
        let (start, others) = rest.split_at(length_before(rest, b" \t\n"));
        if !goes_on(start, others) {
            return text.len() - others.len();
        }
        let (_, next) = others.split_at(blanks(others));
        rest = next;
    }
    text.len()
}

// The words of an argument, one after the other.
#[derive(Drop)]
pub struct Words<'a> {
    rest: Rest<'a>,
}

impl<'a> Iterator for Words<'a> {
    type Item = Part<'a>;

    ghost remaining = { λ s. at_most (length s.rest.text.now) };

    fn next(&mut self) -> Option<Part<'a>> {
        let n = blanks(self.rest.text);
        self.rest.take(n);
        if self.rest.text.is_empty() {
            return None;
        }
        let n = word_length(self.rest.text);
        Some(self.rest.take(n))
    }
}

pub fn words_of(argument: &[u8]) -> Words<'_> {
    Words {
        rest: Rest {
            from: 0,
            text: argument,
        },
    }
}

// ---- places in an argument

impl Part<'_> {
    // The bytes that are no blanks, up to 512, in a buffer.
    pub fn joined<'b>(self, buffer: &'b mut [u8; 512]) -> &'b [u8]
        ensures few { length result.now ≤ 512 }
    {
        let mut n = 0;
        for c in self.text {
            if !is_blank(*c) && n < 512 {
                buffer[n] = *c;
                n += 1;
            }
        }
        &buffer[..n]
    }

    // The place of the byte behind n others of the part, blanks not counted.
    fn place_of(self, n: usize) -> usize {
        let place = self
            .text
            .iter()
            .enumerate()
            .filter(|(_, c)| !is_blank(**c))
            .nth(n)
            .map_or(self.text.len(), |(i, _)| i);
        self.from.saturating_add(place)
    }

    // The place behind n bytes of the part, blanks not counted.
    fn end_of(self, n: usize) -> usize {
        match n.checked_sub(1) {
            Some(last) => self.place_of(last).saturating_add(1),
            None => self.from,
        }
    }

    // A fault of the word that the part says, at its places in the argument.
    pub fn placed(self, stop: Stop) -> Stop {
        match stop {
            Stop::Help => Stop::Help,
            Stop::Misread(misread) => Stop::Misread(Misread {
                fault: misread.fault,
                from: self.place_of(misread.from),
                end: self.end_of(misread.end),
                at: self.place_of(misread.at),
            }),
        }
    }
}

// ---- pieces of a word

// How many bytes a text has up to the bracket that closes the one that it begins with.
fn length_past(text: &[u8], bracket: u8) -> usize
    requires { 0 < length text.now }
    ensures some { 0 < result }
    ensures within { result ≤ length text.now }
{
    let n = length_before(text, &[bracket]);
    if n < text.len() { n + 1 } else { n }
}

// How many bytes the piece has that a text begins with: a call in brackets, a closing bracket that nothing opens, or tiles up to the next bracket.
fn piece_length(text: &[u8]) -> usize
    requires { 0 < length text.now }
    ensures some { 0 < result }
    ensures within { result ≤ length text.now }
{
    match text[0] {
        b'(' => length_past(text, b')'),
        b'[' => length_past(text, b']'),
        b')' | b']' => 1,
        _ => length_before(text, b"()[]"),
    }
}

// The pieces of a word, one after the other.
#[derive(Drop)]
pub struct Pieces<'a> {
    rest: Rest<'a>,
}

impl<'a> Iterator for Pieces<'a> {
    type Item = Part<'a>;

    ghost remaining = { λ s. at_most (length s.rest.text.now) };

    fn next(&mut self) -> Option<Part<'a>> {
        if self.rest.text.is_empty() {
            return None;
        }
        let n = piece_length(self.rest.text);
        Some(self.rest.take(n))
    }
}

pub fn pieces_of(word: &[u8]) -> Pieces<'_> {
    Pieces {
        rest: Rest {
            from: 0,
            text: word,
        },
    }
}
