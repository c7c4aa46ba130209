//! Sites that are asked what they have: what each says of a name, and where its aliases lead.

ghost use Rattle.std.specs.Prelude.{IsTrue, IfOk, IfSome};
ghost use Rattle.fleet_observe.specs.Members.{Has};
ghost use Rattle.fleet_observe.specs.RrSet.{IsOfRrSet};
ghost use Rattle.fleet_program.specs.Alias.{SaysAlias};
ghost use Rattle.fleet_wire.specs.declared.rtype.TheConstants.{CNAME};

use crate::udp_port::SystemSocket;
use fleet_name::{Name, Octets, suffix_in};
use fleet_observe::bounds::MOST_LINKS;
use fleet_pending::Addr;
use fleet_site::Socket;
use fleet_wire::bounds::LONGEST_MESSAGE;
use fleet_wire::class::IN;
use fleet_wire::rcode::REFUSED;
use fleet_wire::rtype::CNAME;
use fleet_wire::{Question, ReadFault, Record, read_header, read_reply, write_query};
use std::alloc::{AllocError, Global};
use std::fmt;
use std::time::{self, Duration};

/// How many milliseconds the sites have to answer.
const PATIENCE: u64 = 2000;

/// What a site says of a name.
#[derive(Clone, Copy, PartialEq, Eq)]
pub enum Answer {
    /// Nothing came.
    Nothing,
    /// It has no answer: it refuses a question that it would have to ask an upstream.
    Withdrawn,
    /// It answers with this code, and so many records.
    Still(u8, u16),
    /// It read the flush as a question, since it has no peer at the address that the flush came from.
    Untaken,
}

impl fmt::Display for Answer {
    fn fmt<W: fmt::Write>(&self, f: &mut fmt::Formatter<W>) -> fmt::Result {
        match self {
            Answer::Nothing => write!(f, "no answer"),
            Answer::Withdrawn => write!(f, "withdrawn"),
            Answer::Untaken => write!(f, "not taken: the address of --from is none of its peers"),
            Answer::Still(code, records) => write!(
                f,
                "still answers: code {code}, records {records}"
            ),
        }
    }
}

/// A site, what it was asked last, and what it said.
#[derive(Drop)]
pub struct AskedSite {
    /// Its address.
    pub address: Addr,
    /// What it said to the last question.
    pub answer: Answer,
    /// The last name that its aliases lead to, as far as it was asked.
    last: Name,
    /// The last question.
    question: Vec<u8>,
    /// The target, where the answer is an alias.
    target: Option<Name>,
    /// Whether the answer to the last question may still come.
    is_awaited: bool,
}

impl AskedSite {
    /// A site that was not asked yet for a name.
    pub fn new(alloc: Global, address: Addr, name: &Name) -> Result<AskedSite, AllocError> {
        Ok(AskedSite {
            address,
            answer: Answer::Nothing,
            last: name.try_clone()?,
            question: Vec::new(alloc),
            target: None,
            is_awaited: false,
        })
    }

    /// The last name that the site's aliases lead to, if a flush of the name that they begin at leaves
    /// it: it is neither that name nor below it.
    pub fn alias_that_stays(&self, flushed: &Name) -> Option<&Name> {
        if self.last.is_under(flushed) {
            None
        } else {
            Some(&self.last)
        }
    }

    /// Asks the site. What the system refuses to send shows as no answer.
    fn ask<C: time::Clock>(&mut self, asker: &mut SystemSocket<'_, C>, question: Vec<u8>) {
        let _ = asker.send(self.address, &question);
        self.question = question;
        self.answer = Answer::Nothing;
        self.target = None;
        self.is_awaited = true;
    }

    /// Notes what a datagram of the site says, if it replies to the last question.
    fn hear(&mut self, alloc: Global, datagram: &[u8]) -> Result<(), AllocError> {
        if let Some(answer) = answer_in(datagram, &self.question) {
            self.answer = answer;
            self.target = target_in(alloc, datagram)?;
            self.is_awaited = false;
        }
        Ok(())
    }

    /// Asks the site for the CNAME of the target that it said last. Whether it said one.
    fn follow<C: time::Clock>(
        &mut self,
        asker: &mut SystemSocket<'_, C>,
        alloc: Global,
        id: u16,
    ) -> Result<bool, AllocError> {
        let Some(target) = self.target.take() else {
            return Ok(false);
        };
        self.ask(asker, question(alloc, id, &target, CNAME)?);
        self.last = target;
        Ok(true)
    }
}

/// A question for a name with RD clear, so that a site asks no upstream (RFC 1035 4.1.1).
fn question(alloc: Global, id: u16, name: &Name, rtype: u16) -> Result<Vec<u8>, AllocError> {
    let asked = Question {
        spelled: Octets::copy_of(alloc, name.octets())?,
        name: name.try_clone()?,
        rtype,
        class: IN,
    };
    let mut octets = write_query(alloc, id, &asked)?;
    octets[2] = 0;
    Ok(octets)
}

/// What a datagram says, if it is a reply to the question.
fn answer_in(datagram: &[u8], question: &[u8]) -> Option<Answer> {
    let header = read_header(datagram)?;
    let asked = question.get(12..)?;
    if !header.response || datagram[..2] != question[..2] || !datagram[12..].starts_with(asked) {
        return None;
    }
    Some(if header.rcode == REFUSED {
        Answer::Withdrawn
    } else {
        Answer::Still(header.rcode, header.counts[1])
    })
}

// Lets through: no alias, whatever the record says, since its clause speaks of `true` alone. Cases of
// `tests/run` (`test_withdrawals`) see it.
/// Whether a record says that a name is an alias (RFC 1035 3.3.1).
fn is_alias(link: &Record, name: &Name) -> bool
    ensures { IsTrue result → IsOfRrSet name.now CNAME link.now }
{
    link.rtype == CNAME && link.class == IN && link.name.same(name)
}

// Lets through: none, and another alias of the name than the first: the clause speaks of what is found.
// A cache answers one alias of a name at most. Cases of `tests/run` (`test_withdrawals`) see none.
/// The first record of an answer section that says a name to be an alias.
fn alias_at<'a>(answer: &'a [Record], name: &Name) -> Option<&'a Record>
    ensures { IfSome result (λ r. Has answer.now r.now × IsOfRrSet name.now CNAME r.now) }
{
    for link in answer {
        if is_alias(link, name) {
            return Some(link);
        }
    }
    None
}

// Lets through: none, and an allocation that fails, whatever the reply says: the clause speaks of what is
// found. Cases of `tests/run` (`test_withdrawals`) see it.
/// The target of the alias that a reply says its question's name to be. `None` where it says none, or
/// can't be read.
fn target_in(alloc: Global, reply: &[u8]) -> Result<Option<Name>, AllocError>
    ensures { IfOk result (λ found. IfSome found (λ target. SaysAlias reply.now target)) }
{
    let message = match read_reply(alloc, reply) {
        Ok(message) => message,
        Err(ReadFault::OutOfMemory) => return Err(AllocError),
        Err(_) => return Ok(None),
    };
    let Some(link) = alias_at(message.answer(), &message.question().name) else {
        return Ok(None);
    };
    let target = link.rdata.as_slice();
    if suffix_in(target, 0).is_none() {
        return Ok(None);
    }
    Ok(Some(Name::copy_of(alloc, target)?))
}

/// Receives what comes within the time that the sites have, and notes what each says first.
fn receive_answers<C: time::Clock>(
    asker: &mut SystemSocket<'_, C>,
    alloc: Global,
    sites: &mut [AskedSite],
) -> Result<(), AllocError> {
    let Some(began) = asker.time() else {
        return Ok(());
    };
    let end = began.saturating_add(Duration::from_millis(PATIENCE));
    let mut buffer = [0u8; LONGEST_MESSAGE];
    // A receive waits 200 milliseconds at most; that so many come is not seen.
    for _ in 0..u32::MAX {
        match asker.time() {
            Some(now) if now < end && sites.iter().any(|it| it.is_awaited) => {}
            _ => return Ok(()),
        }
        let Ok(Some((from, len))) = asker.receive(&mut buffer) else {
            continue;
        };
        for site in sites.iter_mut() {
            if site.is_awaited && site.address == from {
                site.hear(alloc, &buffer[..len])?;
            }
        }
    }
    Ok(())
}

/// Asks each site for a name, with RD clear, and receives what they say.
pub fn ask_sites<C: time::Clock>(
    asker: &mut SystemSocket<'_, C>,
    alloc: Global,
    id: u16,
    name: &Name,
    rtype: u16,
    sites: &mut [AskedSite],
) -> Result<(), AllocError> {
    for site in sites.iter_mut() {
        site.ask(asker, question(alloc, id, name, rtype)?);
    }
    receive_answers(asker, alloc, sites)
}

/// Asks each site for the CNAME of a name, then of the target that it answers, and so on, for as many
/// links as a site follows. So each has the last name that its aliases lead to. The identifiers are
/// those after `id`.
pub fn follow_aliases<C: time::Clock>(
    asker: &mut SystemSocket<'_, C>,
    alloc: Global,
    id: u16,
    name: &Name,
    sites: &mut [AskedSite],
) -> Result<(), AllocError> {
    let mut id = id.wrapping_add(1);
    ask_sites(asker, alloc, id, name, CNAME, sites)?;
    for _ in 0..MOST_LINKS {
        id = id.wrapping_add(1);
        let mut goes_on = false;
        for site in sites.iter_mut() {
            site.is_awaited = false;
            if site.follow(asker, alloc, id)? {
                goes_on = true;
            }
        }
        if !goes_on {
            return Ok(());
        }
        receive_answers(asker, alloc, sites)?;
    }
    Ok(())
}
