//! Which of the frames of a turn wait to be sent.

ghost use Rattle.std.specs.Prelude.{◌≡◌, ◌≢◌, ◌↔◌, ◌≤◌, IsTrue};
ghost use Rattle.fleet_site.specs.socket.Window.{whole_window, is_inside, is_due, after_kept, after_passed, goes_on, next_turn};

use crate::outbox::MOST_PLACES;

/// How many frames a turn has at least that is a sweep to be shared out.
const FEW: u64 = 1024;

/// How many places are reserved at most for the frames that the last sweep missed: half of
/// `MOST_PLACES`, which no check says.
const MOST_RESERVED: u64 = 2047;

/// Which of the frames of a turn wait to be sent, where they do not all find room: those from one on,
/// and of those before it as many as leave room for these. All else goes out at once, and so does what
/// finds no room or no memory. The window of the next sweep begins with the first frame that this one
/// missed, so that it is not the same frames each time that go out without a pause. Where sweeps of
/// very different sizes alternate, the last frames of the larger one may never wait.
#[derive(Clone, Copy, PartialEq, Eq, Debug)]
pub struct Window {
    begins: u64,
    reserved: u64,
    count: u64,
    missed: Option<u64>,
    short: u64,
    has_passed: bool,
}

impl Window {
    /// The window at first: no frame came in this turn, and it begins with the first one.
    pub fn new() -> Window
        ensures { result ≡ whole_window }
    {
        Window {
            begins: 0,
            reserved: 0,
            count: 0,
            missed: None,
            short: 0,
            has_passed: false,
        }
    }

    /// Whether a frame came in this turn.
    pub fn has_frames(self) -> bool
        ensures { IsTrue result ↔ (self.count ≢ 0) }
    {
        self.count != 0
    }

    /// Whether the next frame of the turn is of the window.
    fn is_inside(self) -> bool
        ensures { result ≡ is_inside self }
    {
        self.begins <= self.count
    }

    /// Whether the next frame of the turn is to wait, where so many places are taken.
    pub fn is_due(self, places: usize) -> bool
        requires { places ≤ MOST_PLACES }
        ensures { result ≡ is_due self places }
    {
        self.is_inside() || places as u64 + self.reserved.min(MOST_RESERVED) < MOST_PLACES as u64
    }

    /// The window after a frame that waits.
    pub fn after_kept(self) -> Window
        ensures { result ≡ after_kept self }
    {
        Window {
            count: self.count.saturating_add(1),
            ..self
        }
    }

    /// The window after a frame that does not wait.
    pub fn after_passed(self) -> Window
        ensures { result ≡ after_passed self }
    {
        let (missed, short) = if self.is_inside() {
            let missed = self.missed.unwrap_or(self.count);
            (Some(missed), self.short.saturating_add(1))
        } else {
            (self.missed, self.short)
        };
        Window {
            count: self.count.saturating_add(1),
            missed,
            short,
            has_passed: true,
            ..self
        }
    }

    /// Whether the window goes on after the turn: it was a sweep, and not all of it waited.
    fn goes_on(self) -> bool
        ensures { result ≡ goes_on self }
    {
        self.count >= FEW && self.has_passed
    }

    /// The window of the next turn.
    pub fn next_turn(self) -> Window
        ensures { result ≡ next_turn self }
    {
        let (begins, reserved) = if self.goes_on() {
            (self.missed.unwrap_or(0), self.short)
        } else {
            (self.begins, self.reserved)
        };
        Window {
            begins,
            reserved,
            ..Window::new()
        }
    }
}
