//! The device from which a session takes its requests and to which it gives its answers.
use thiserror::Error;

/// The maximum number of bytes of a request.
pub const MAX_LINE: usize = 4096;

/// The result of asking a desk for a request.
#[derive(Clone, Copy, Debug, PartialEq, Eq)]
pub enum Taken {
    /// A request, which is now the desk's line.
    Line,
    /// A request with more than `MAX_LINE` bytes, which was not kept.
    TooLong,
    /// The end of the requests.
    End,
}

/// The reasons why a desk can serve no more requests.
#[derive(Clone, Copy, Debug, Drop, PartialEq, Eq, Error)]
pub enum DeskFault {
    /// A read of the requests failed.
    #[error("the requests cannot be read")]
    Input,
    /// A write of an answer failed.
    #[error("an answer cannot be written")]
    Output,
}

/// A device that hands over requests and takes answers, one at a time. Its log records both in their order.
pub trait Desk {
    ghost use Rattle.desks.specs.Events.{Event, Logs, asked_by, told_by};
    ghost use Rattle.desks.specs.declared.desk.Taken.TheVariants as taken;
    ghost use Rattle.std.specs.Prelude.{◌≡◌, ◌<◌, ◌≤◌, IfErr, List, Ok, OnOk, length, ℕ};

    // These events were logged, in this order, from one state of a desk to a later one. Code that is generic over desks
    // knows it only from the calls that it makes.
    ghost log: { Self → List Event → Self → Type 0 };

    // The request that was handed over last.
    ghost line: { Self → List ℕ };

    // The requests ended, and all were handed over.
    ghost at_end: { Self → Type 0 } = { λ _. Unit {0} };

    // A read of the requests failed.
    ghost cut_off: { Self → Type 0 } = { λ _. Unit {0} };

    // A write of an answer failed.
    ghost unwritten: { Self → Type 0 } = { λ _. Unit {0} };

    // All that was written was flushed.
    ghost flushed: { Self → Type 0 };

    /// Hands over the next request. Lines without bytes are skipped, and one carriage return at the end of a line is
    /// not part of the request.
    fn next(&mut self) -> Result<Taken, DeskFault>
        ensures log { Logs log self.old (asked_by result (line self.new)) self.new }
        ensures kept { result ≡ Ok taken.Line → (0 < length (line self.new)) × (length (line self.new) ≤ MAX_LINE) }
        ensures end { result ≡ Ok taken.End → at_end self.new }
        ensures fault { IfErr result (λ e. (e ≡ DeskFault.Input) × cut_off self.new) };

    /// Returns the request that was handed over last.
    fn line(&self) -> &[u8]
        ensures { result.now ≡ line self.now };

    /// Takes an answer. If the result is `Ok`, the whole answer was written and flushed. If it is `Err`, a part of it
    /// may have been written.
    fn tell(&mut self, text: &[u8]) -> Result<(), DeskFault>
        ensures log { Logs log self.old (told_by result text.now) self.new }
        ensures flushed { OnOk result (flushed self.new) }
        ensures fault { IfErr result (λ e. (e ≡ DeskFault.Output) × unwritten self.new) };
}
