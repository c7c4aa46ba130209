//! Names as words: a map compares a few words faster than many octets.

ghost use Rattle.std.specs.Prelude.{◌≡◌, ◌<◌, ◌≤◌, ◌*◌, drop, length, MatchOption};
ghost use Rattle.std.specs.List.{AllByRecursion};
ghost use Rattle.fleet_cache.specs.declared.words.TheConstants.{MOST_WORDS, SHORT_WORDS, WEIGHTS, WORD_OCTETS};
ghost use Rattle.fleet_cache.specs.steps.Packed.{weigh, octet_words, short_words};

use arrayvec::ArrayVec;

/// How many octets a word has at most.
pub(crate) const WORD_OCTETS: usize = 8;

/// The most words of a name. With `WORD_OCTETS` to a word they have room for `LONGEST_NAME` octets
/// (RFC 1035 2.3.4).
pub(crate) const MOST_WORDS: usize = 32;

/// How many words the key of a short name has, as many as `ShortKey` has fields: a name is short if its
/// octets fit in these.
pub(crate) const SHORT_WORDS: usize = 4;

/// The powers of 256 from the seventh one down: an octet is a digit, and 0 is the digit where there
/// are no more octets.
const WEIGHTS: [u64; WORD_OCTETS] = [
    72057594037927936,
    281474976710656,
    1099511627776,
    4294967296,
    16777216,
    65536,
    256,
    1,
];

/// The words of a short name, zero after its end, in place: who compares two waits for no other
/// memory.
#[derive(Clone, Copy, PartialEq, Eq, PartialOrd, Ord, Drop)]
pub(crate) struct ShortKey {
    a: u64,
    b: u64,
    c: u64,
    d: u64,
}

impl ShortKey {
    /// The words as an array.
    pub(crate) fn words(&self) -> [u64; SHORT_WORDS]
        ensures { result ≡ short_words self.now }
    {
        [self.a, self.b, self.c, self.d]
    }

    /// The key with these words, if they are as many as a short name has.
    pub(crate) fn of_words(words: &[u64]) -> Option<ShortKey>
        ensures { MatchOption result (length words.now ≡ SHORT_WORDS → ⊥)
            (λ key. short_words key ≡ words.now) }
    {
        if words.len() != SHORT_WORDS {
            return None;
        }
        Some(ShortKey {
            a: words[0],
            b: words[1],
            c: words[2],
            d: words[3],
        })
    }
}

/// The key of a name, by its octets, if it is short.
pub(crate) fn short_key(octets: &[u8]) -> Option<ShortKey>
    ensures words { MatchOption result (WORD_OCTETS * SHORT_WORDS < length octets.now)
        (λ key. short_words key ≡ octet_words octets.now) }
    ensures bytes { AllByRecursion (λ x. x < 256) octets.now }
{
    if octets.len() > WORD_OCTETS * SHORT_WORDS {
        return None;
    }
    let first = next_word(octets);
    let second = next_word(first.rest);
    let third = next_word(second.rest);
    let fourth = next_word(third.rest);
    Some(ShortKey {
        a: first.word,
        b: second.word,
        c: third.word,
        d: fourth.word,
    })
}

/// A word, and the octets after it.
#[derive(Drop)]
struct Next<'a> {
    word: u64,
    rest: &'a [u8],
}

/// The first word of octets, zero after the end.
fn next_word(octets: &[u8]) -> Next<'_>
    ensures word { result.word ≡ weigh WEIGHTS octets.now }
    ensures rest { result.rest.now ≡ drop WORD_OCTETS octets.now }
{
    if let Some((first, rest)) = octets.split_first_chunk::<WORD_OCTETS>() {
        let word = u64::from_be_bytes(*first);
        return Next { word, rest };
    }
    let word = word_of(octets);
    Next { word, rest: &[] }
}

/// The words of a name that is not short, by its octets, `WORD_OCTETS` to a word, zero after the
/// end. Those of names compare as the names do, since no name is a proper prefix of another.
pub(crate) fn pack(octets: &[u8]) -> ArrayVec<u64, MOST_WORDS>
    requires long { WORD_OCTETS * SHORT_WORDS < length octets.now }
    requires fits { length octets.now ≤ WORD_OCTETS * MOST_WORDS }
    ensures words { result.items ≡ octet_words octets.now }
    ensures bytes { AllByRecursion (λ x. x < 256) octets.now }
{
    let mut words = ArrayVec::new();
    let mut rest = octets;
    while let Some((first, after)) = rest.split_first_chunk::<WORD_OCTETS>() {
        words.push(u64::from_be_bytes(*first));
        rest = after;
    }
    if rest.is_empty() {
        return words;
    }
    words.push(word_of(rest));
    words
}

/// At most `WORD_OCTETS` octets as a word.
fn word_of(octets: &[u8]) -> u64
    requires { length octets.now ≤ WORD_OCTETS }
    ensures { result ≡ weigh WEIGHTS octets.now }
{
    let mut word = 0;
    for (i, octet) in octets.iter().enumerate() {
        word += u64::from(*octet) * WEIGHTS[i];
    }
    word
}
