//! What waits in a port.

ghost use Rattle.std.specs.Prelude.{◌≡◌};
ghost use Rattle.fleet_site.specs.socket.Waiting.{no_drops, one_dropped};

/// How many datagrams wait in each queue of a port, and how many found no room or no memory in one.
#[derive(Clone, Copy, Debug, PartialEq, Eq)]
pub struct Queued {
    /// Messages that came in and were not handed on yet.
    pub messages: usize,
    /// Frames that came in and were not handed on yet.
    pub frames: usize,
    /// Frames that wait to be sent, each once for all that it goes to.
    pub leaving: usize,
    /// Datagrams that came in and were dropped.
    pub dropped: Drops,
    /// Frames that went out without waiting. It stays at the greatest number.
    pub unpaced: u64,
}

/// How many datagrams that came in were dropped, by the queue that had no room or no memory for them. A
/// stranger's long datagram is dropped where a message waits. Each number stays at the greatest one.
#[derive(Clone, Copy, Debug, PartialEq, Eq)]
pub struct Drops {
    /// Messages, and what is longer and no frame.
    pub messages: u64,
    /// Frames.
    pub frames: u64,
}

impl Drops {
    /// Nothing was dropped.
    pub fn none() -> Drops
        ensures { result ≡ no_drops }
    {
        Drops {
            messages: 0,
            frames: 0,
        }
    }

    /// Counts a datagram that is dropped.
    pub fn count(&mut self, is_frame: bool)
        ensures { self.new ≡ one_dropped is_frame self.old }
    {
        if is_frame {
            self.frames = self.frames.saturating_add(1);
        } else {
            self.messages = self.messages.saturating_add(1);
        }
    }
}
