//! Serves sessions over an input and an output.
ghost use Rattle.desks.specs.Takings.{coming};
ghost use Rattle.desks.specs.declared.intake.Reach.TheVariants as reach;
ghost use Rattle.session.specs.Conversations.{AreFromSource, Turn, opening_text};
ghost use Rattle.span_cli.specs.Serving.{ended_answer};
ghost use Rattle.span_cli.specs.Telling.{told};
ghost use Rattle.span_cli.specs.near.Sessions.{TellsSession, ending_of};
ghost use Rattle.std.specs.Prelude.{◌≡◌, [], List};
ghost use Rattle.writers.specs.Streams.{Says};

use desks::desk::DeskFault;
use desks::intake::Requests;
use desks::stream_desk::StreamDesk;
use session::conversation::run;
use session::session::{Opened, Workers};
use sources::Sources;
use sources::input::Input;
use statement_text::statuses::{DONE, FILE_FAILED};
use std::io::Write;
use std::sync::Wait;
use std::thread::Threads;
use std::time::Clock;
use worker_pool::gates::Gate;
use writers::marked_writer::MarkedWriter;

// Writes the name of the stream that failed, if one did, and returns the status.
fn tell_end<E: Write>(
    served: Result<(), DeskFault>,
    is_unwritten: bool,
    err: &mut MarkedWriter<E>,
) -> u8
    ensures status { result ≡ (told is_unwritten (ended_answer (ending_of is_unwritten served) [])).status }
    ensures line { Says err.old err.new (told is_unwritten (ended_answer (ending_of is_unwritten served) [])).err }
{
    if is_unwritten {
        let _ = writeln!(err, "file: output");
        return FILE_FAILED;
    }
    match served {
        Ok(()) => DONE,
        Err(_) => {
            let _ = writeln!(err, "file: input");
            FILE_FAILED
        }
    }
}

/// Answers these requests, beginning with the first, and returns the status. Each answer is written and flushed before
/// the next request is taken.
pub(crate) fn serve_session<
    I: Input,
    S: Sources,
    W: Write,
    E: Write,
    R: Threads + Wait + Clock + Sync,
    G: Gate,
>(
    workers: &Workers<'_, R, G>,
    mut opened: Opened,
    sources: &mut S,
    requests: Requests<'_, I>,
    out: &mut MarkedWriter<W>,
    err: &mut MarkedWriter<E>,
) -> u8
    requires text { opened.text.items ≡ opening_text opened.session }
    requires fresh { requests.reach ≡ reach.Open }
    ensures { (turns : List Turn) × AreFromSource (S.file sources.old) S.reads sources.old turns sources.new
        × TellsSession (S.file sources.old) (coming requests.entry.block requests.entry.reader) opened.session turns result
        out.old out.new err.old err.new }
{
    let mut desk = StreamDesk::new(requests, out);
    let served = run(&mut desk, sources, workers, &mut opened);
    let output = desk.close();
    let is_unwritten = output.failed();
    let _ = &*output;
    tell_end(served, is_unwritten, err)
}
