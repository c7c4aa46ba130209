//! What a line asks for.

ghost use Rattle.std.specs.Prelude.{◌≡◌, map, take};
ghost use Rattle.fleet_program.specs.Words.{words_of};

use crate::fault::LineFault;
use crate::words::{
    Hex, NameWord, SiteCount, address, moment, number, site_count, word_of_16_bits,
};
use arrayvec::ArrayVec;
use fleet_observe::Moment;
use fleet_pending::Addr;
use fleet_world::Event;
use std::alloc::{AllocError, Allocator};

/// What a line asks for.
#[derive(Drop)]
pub enum Command<'a> {
    /// The fleet has this number of sites.
    Sites {
        count: SiteCount,
    },
    /// A site is asked a question.
    Ask {
        site: usize,
        now: Moment,
        question: Hex<'a>,
    },
    /// What a site holds is shown.
    Show {
        site: usize,
    },
    /// Two sites are compared.
    Same {
        one: usize,
        other: usize,
    },
    /// Something happens in the world.
    Event(EventLine<'a>),
}

/// An event of the world, its octets still as the line spells them.
#[derive(Drop)]
pub enum EventLine<'a> {
    /// A site is handed a reply.
    Learn {
        site: usize,
        now: Moment,
        reply: Hex<'a>,
    },
    /// A name is flushed at a site.
    Flush {
        site: usize,
        now: Moment,
        name: NameWord<'a>,
    },
    /// A datagram comes in.
    Datagram {
        site: usize,
        now: Moment,
        from: Addr,
        word: u16,
        octets: Hex<'a>,
    },
    /// Octets come in as a frame.
    Frame {
        site: usize,
        now: Moment,
        octets: Hex<'a>,
    },
    /// A frame that was sent comes in.
    Deliver {
        site: usize,
        now: Moment,
        frame: usize,
    },
    /// Time passes at a site.
    Tick {
        site: usize,
        now: Moment,
    },
    /// All that a site holds goes out as frames.
    Sweep {
        site: usize,
    },
    /// A site takes in all that another one holds.
    Merge {
        into: usize,
        from: usize,
    },
    /// A site begins again as new.
    Restart {
        site: usize,
    },
}

impl EventLine<'_> {
    /// The site at which an event happens; of a merge, the greater number of the two, so that both are
    /// there where it is.
    pub fn site(&self) -> usize {
        match self {
            EventLine::Learn { site, .. } => *site,
            EventLine::Flush { site, .. } => *site,
            EventLine::Datagram { site, .. } => *site,
            EventLine::Frame { site, .. } => *site,
            EventLine::Deliver { site, .. } => *site,
            EventLine::Tick { site, .. } => *site,
            EventLine::Sweep { site } => *site,
            EventLine::Merge { into, from } => usize::max(*into, *from),
            EventLine::Restart { site } => *site,
        }
    }

    /// The number of the frame that comes in, if it was sent before.
    pub fn frame(&self) -> Option<usize> {
        match self {
            EventLine::Deliver { frame, .. } => Some(*frame),
            _ => None,
        }
    }

    /// Makes the event itself, with its octets.
    pub fn event<A: Allocator + Copy>(self, alloc: A) -> Result<Event<A>, AllocError> {
        Ok(match self {
            EventLine::Learn { site, now, reply } => Event::Learn {
                site,
                now,
                bytes: reply.octets(alloc)?,
            },
            EventLine::Flush { site, now, name } => Event::Flush {
                site,
                now,
                name: name.name(alloc)?,
            },
            EventLine::Datagram {
                site,
                now,
                from,
                word,
                octets,
            } => Event::Datagram {
                site,
                now,
                from,
                word,
                bytes: octets.octets(alloc)?,
            },
            EventLine::Frame { site, now, octets } => Event::Frame {
                site,
                now,
                bytes: octets.octets(alloc)?,
            },
            EventLine::Deliver { site, now, frame } => Event::Deliver { site, now, frame },
            EventLine::Tick { site, now } => Event::Tick { site, now },
            EventLine::Sweep { site } => Event::Sweep { site },
            EventLine::Merge { into, from } => Event::Merge { into, from },
            EventLine::Restart { site } => Event::Restart { site },
        })
    }
}

/// The first words of a line, up to seven: one more than the longest line has, so that a word too many
/// is seen.
fn first_words(line: &str) -> ArrayVec<&str, 7>
    ensures { map (λ word. word.now) result.items ≡ take 7 (words_of line.now) }
{
    let mut words = ArrayVec::new();
    // There is room for seven.
    let _ = words.extend(line.split(' ').take(7));
    words
}

// Lets through: another command than the line's words ask for, since it has no clause; so have
// `read_event`, `read_arrival` and `word_fault`. The worked examples and each fault of a line
// (`tests/run`) see it.
/// Reads a line: what it asks for, or its first fault, word by word from the left.
pub fn read_command(line: &str) -> Result<Command<'_>, LineFault> {
    let words = first_words(line);
    match words.as_slice() {
        ["sites", count] => Ok(Command::Sites {
            count: site_count(count).ok_or(LineFault::BadNumber)?,
        }),
        ["ask", site, now, question] => Ok(Command::Ask {
            site: number_word(site)?,
            now: moment_word(now)?,
            question: hex_word(question)?,
        }),
        ["show", site] => Ok(Command::Show {
            site: number_word(site)?,
        }),
        ["same", one, other] => Ok(Command::Same {
            one: number_word(one)?,
            other: number_word(other)?,
        }),
        words => Ok(Command::Event(read_event(words)?)),
    }
}

/// Reads the words of a line as an event.
fn read_event<'a>(words: &[&'a str]) -> Result<EventLine<'a>, LineFault> {
    match words {
        ["tick", site, now] => Ok(EventLine::Tick {
            site: number_word(site)?,
            now: moment_word(now)?,
        }),
        ["sweep", site] => Ok(EventLine::Sweep {
            site: number_word(site)?,
        }),
        ["merge", into, from] => Ok(EventLine::Merge {
            into: number_word(into)?,
            from: number_word(from)?,
        }),
        ["restart", site] => Ok(EventLine::Restart {
            site: number_word(site)?,
        }),
        words => read_arrival(words),
    }
}

/// Reads the words of a line as something that comes to a site.
fn read_arrival<'a>(words: &[&'a str]) -> Result<EventLine<'a>, LineFault> {
    match words {
        ["learn", site, now, reply] => Ok(EventLine::Learn {
            site: number_word(site)?,
            now: moment_word(now)?,
            reply: hex_word(reply)?,
        }),
        ["flush", site, now, name] => Ok(EventLine::Flush {
            site: number_word(site)?,
            now: moment_word(now)?,
            name: name_word(name)?,
        }),
        ["datagram", site, now, from, word, octets] => Ok(EventLine::Datagram {
            site: number_word(site)?,
            now: moment_word(now)?,
            from: address(from).ok_or(LineFault::BadAddress)?,
            word: word_of_16_bits(word).ok_or(LineFault::BadNumber)?,
            octets: hex_word(octets)?,
        }),
        ["frame", site, now, octets] => Ok(EventLine::Frame {
            site: number_word(site)?,
            now: moment_word(now)?,
            octets: hex_word(octets)?,
        }),
        ["deliver", site, now, frame] => Ok(EventLine::Deliver {
            site: number_word(site)?,
            now: moment_word(now)?,
            frame: number_word(frame)?,
        }),
        words => Err(word_fault(words)),
    }
}

/// The events, as a line begins with them. Where the name of one is missing here, a line of it with a
/// wrong number of words is an unknown event; only a test would show that.
const EVENTS: [&str; 13] = [
    "sites", "learn", "ask", "show", "datagram", "tick", "sweep", "frame", "deliver", "merge",
    "restart", "same", "flush",
];

/// What is wrong with words that are no line: their number, or the first of them.
fn word_fault(words: &[&str]) -> LineFault {
    match words.first() {
        Some(first) if EVENTS.contains(first) => LineFault::WordCount,
        _ => LineFault::UnknownEvent,
    }
}

/// Reads a word as a number.
fn number_word(word: &str) -> Result<usize, LineFault> {
    number(word).ok_or(LineFault::BadNumber)
}

/// Reads a word as a moment.
fn moment_word(word: &str) -> Result<Moment, LineFault> {
    moment(word).ok_or(LineFault::BadNumber)
}

/// Reads a word as a name: its octets first, and then that they are a name.
fn name_word(word: &str) -> Result<NameWord<'_>, LineFault> {
    NameWord::new(hex_word(word)?).ok_or(LineFault::BadName)
}

/// Reads a word as octets.
fn hex_word(word: &str) -> Result<Hex<'_>, LineFault> {
    Hex::new(word).ok_or(LineFault::BadHex)
}
