//! Rows of tables: a call of the libraries, ` => `, and its output.

use crate::tests::layers::messages::MESSAGES;
use std::alloc::Global;
use std::process::Abort;

/// The first word of a text, and what comes after it.
fn first_of(text: &str) -> (&str, &str) {
    text.split_once(' ').unwrap_or((text, ""))
}

/// The words of a row that have not been read yet.
#[derive(Clone, Copy)]
pub(crate) struct Words<'a> {
    rest: &'a str,
}

impl<'a> Words<'a> {
    /// These words.
    pub(crate) fn new(rest: &'a str) -> Words<'a> {
        Words { rest }
    }

    /// Whether there are no more.
    pub(crate) fn is_empty(&self) -> bool {
        self.rest.is_empty()
    }

    /// The next word, which has no letters where there is none.
    pub(crate) fn word(&mut self) -> &'a str {
        let (word, rest) = first_of(self.rest);
        self.rest = rest;
        word
    }

    /// The octets of the next word.
    pub(crate) fn octets(&mut self, rt: &impl Abort, alloc: Global) -> Vec<u8> {
        octets_of(rt, alloc, self.word())
    }
}

/// A row: a call, its words, and after ` => ` its output.
#[derive(Clone, Copy)]
pub(crate) struct Row<'a> {
    /// The call.
    pub(crate) call: &'a str,
    /// Its words.
    pub(crate) words: Words<'a>,
    /// Its output.
    pub(crate) wanted: &'a str,
}

/// Reads a row.
pub(crate) fn read_row<'a>(rt: &impl Abort, row: &'a str) -> Row<'a> {
    let (asked, wanted) = row.split_once(" => ").expect(rt, "what a row wants");
    let (call, rest) = asked.split_once(' ').unwrap_or((asked, ""));
    let words = Words::new(rest);
    Row {
        call,
        words,
        wanted,
    }
}

/// Whether a line of a table is a row of it: it is not empty, and does not begin with `#`.
pub(crate) fn is_row(line: &str) -> bool {
    !line.is_empty() && !line.starts_with('#')
}

/// Checks the output of a row's call.
pub(crate) fn check_output(rt: &impl Abort, alloc: Global, row: &str, wanted: &str, output: &str) {
    let wanted = spelled(rt, alloc, wanted);
    assert_eq!(rt; output, wanted.as_str(), "{row}");
}

/// The octets of a word in hexadecimal digits, with `-` for none.
pub(crate) fn octets_of(rt: &impl Abort, alloc: Global, word: &str) -> Vec<u8> {
    if word == "-" {
        return Vec::new(alloc);
    }
    let digits = spelled(rt, alloc, word);
    hex::decode(alloc, digits.as_bytes()).expect(rt, "octets")
}

/// The message of a name, as `spelled` reads it.
fn message_of(rt: &impl Abort, name: &str) -> &'static str {
    for line in MESSAGES.lines() {
        if let Some((other, octets)) = line.split_once(' ') {
            if other == name {
                return octets;
            }
        }
    }
    panic!(rt; "no such message")
}

/// A text with digits of octets in place of letters between two `'`, with those that a frame begins
/// with in place of `@`, with what is between braces as often as is said there (`{61*460}` is 460
/// times `61`), and with a message in place of its name between `<` and `>`.
pub(crate) fn spelled(rt: &impl Abort, alloc: Global, text: &str) -> String {
    let mut digits = String::new(alloc);
    let mut pieces = text.split('<');
    push_spelled(rt, &mut digits, pieces.next().unwrap_or(""));
    for piece in pieces {
        let (name, rest) = piece.split_once('>').expect(rt, "a name");
        push_spelled(rt, &mut digits, message_of(rt, name));
        push_spelled(rt, &mut digits, rest);
    }
    digits
}

/// Adds digits, with those of octets in place of letters between two `'`.
fn push_spelled(rt: &impl Abort, digits: &mut String, text: &str) {
    let mut is_letters = false;
    for piece in text.split('\'') {
        if is_letters {
            push_octets(rt, digits, piece.as_bytes());
        } else {
            push_repeated(rt, digits, piece);
        }
        is_letters = !is_letters;
    }
}

/// The magic of a frame, and the version that is written.
const OPENING: &str = "444702";

/// Adds digits, with the opening of a frame in place of each `@`.
fn push_openings(rt: &impl Abort, digits: &mut String, text: &str) {
    for letter in text.chars() {
        match letter {
            '@' => digits.push_str(OPENING).expect(rt, "memory"),
            _ => digits.push(letter).expect(rt, "memory"),
        }
    }
}

/// Adds digits, each repetition in them written out.
fn push_repeated(rt: &impl Abort, digits: &mut String, text: &str) {
    for piece in text.split('{') {
        match piece.split_once('}') {
            Some((repeated, rest)) => {
                push_times(rt, digits, repeated);
                push_openings(rt, digits, rest);
            }
            None => push_openings(rt, digits, piece),
        }
    }
}

/// Adds digits as often as is said after them.
fn push_times(rt: &impl Abort, digits: &mut String, repeated: &str) {
    let (octets, count) = repeated.split_once('*').expect(rt, "a count");
    for _ in 0..count.parse::<u16>().expect(rt, "a number") {
        digits.push_str(octets).expect(rt, "memory");
    }
}

/// Adds the digits of octets, `-` where there are none.
pub(crate) fn push_octets(rt: &impl Abort, output: &mut String, octets: &[u8]) {
    if octets.is_empty() {
        output.push_str("-").expect(rt, "memory");
        return;
    }
    let digits = hex::encode(*output.allocator(), octets).expect(rt, "memory");
    output.push_str(digits.as_str()).expect(rt, "memory");
}
