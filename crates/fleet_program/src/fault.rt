//! Why a script ends early.

ghost use Rattle.std.specs.Prelude.{◌≡◌};
ghost use Rattle.fleet_program.specs.Fault.{line_fault_of};
ghost use Rattle.fleet_program.specs.declared.fault.LineFault.TheVariants.{OutOfMemory};

use fleet_world::WorldFault;
use std::alloc::{AllocError, AllocFailed, Allocator};
use std::fmt::Display;
use std::process::ExitCode;
use thiserror::Error;

/// What is wrong with a line. Faults are reported in this order, but those of words, `BadNumber` to
/// `BadName`, word by word, and `OutOfMemory` at the allocation that failed.
#[derive(Clone, Copy, Debug, Error)]
pub enum LineFault {
    /// The reader failed, or was called too often.
    #[error("read")]
    Read,
    /// The line has more than 65536 octets without its line feed.
    #[error("line too long")]
    LineTooLong,
    /// An octet of the line is not ASCII.
    #[error("not ASCII")]
    NotAscii,
    /// The first word names no event.
    #[error("unknown event")]
    UnknownEvent,
    /// The line has too few words, or too many.
    #[error("wrong number of words")]
    WordCount,
    /// A word is no number of 1 to 13 digits, or one out of range.
    #[error("bad number")]
    BadNumber,
    /// A word is no address.
    #[error("bad address")]
    BadAddress,
    /// A word spells no octets.
    #[error("bad hex")]
    BadHex,
    /// A word spells no name in full.
    #[error("bad name")]
    BadName,
    /// The number of sites is not the first event.
    #[error("sites must come first")]
    SitesNotFirst,
    /// There is no site of this number.
    #[error("no such site")]
    NoSuchSite,
    /// There is no frame of this number.
    #[error("no such frame")]
    NoSuchFrame,
    /// An allocation failed.
    #[error("out of memory")]
    OutOfMemory,
    /// The writer failed.
    #[error("write")]
    Write,
}

impl From<AllocError> for LineFault {
    ghost from_gives = { λ _ w. w ≡ OutOfMemory };

    fn from(_error: AllocError) -> LineFault {
        LineFault::OutOfMemory
    }
}

impl<T: Drop> From<AllocFailed<T>> for LineFault {
    ghost from_gives = { λ _ w. w ≡ OutOfMemory };

    fn from(_error: AllocFailed<T>) -> LineFault {
        LineFault::OutOfMemory
    }
}

impl<A: Allocator> From<WorldFault<A>> for LineFault {
    ghost from_gives = { λ f w. w ≡ line_fault_of f };

    fn from(fault: WorldFault<A>) -> LineFault {
        match fault {
            WorldFault::NoSite => LineFault::NoSuchSite,
            WorldFault::NoFrame => LineFault::NoSuchFrame,
            WorldFault::Memory { .. } => LineFault::OutOfMemory,
            WorldFault::FramesLost(_) => LineFault::OutOfMemory,
        }
    }
}

/// The line, counted from 1, at which a script ended, and what is wrong with it.
#[derive(Clone, Copy, Debug, Error)]
#[error("line {line}: {what}")]
pub struct ScriptFault {
    /// The line, from 1.
    pub line: u64,
    /// What is wrong with it.
    pub what: LineFault,
}

/// Prints to standard error what ends a run, and returns its status, 1. The text may be lost.
pub fn fail<E: Eprint, D: Display + Drop>(rt: &E, fault: D) -> ExitCode
    ensures { result ≡ ExitCode.FAILURE }
{
    let _ = eprintln!(rt; "dnsfleet: {fault}");
    ExitCode::FAILURE
}
