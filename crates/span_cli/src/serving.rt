//! Answers requests.
ghost use Rattle.session.specs.Answers.{is_stdin};
ghost use Rattle.session.specs.Conversations.{Turn};
ghost use Rattle.sources.specs.Reads.{ReadsInOrder};
ghost use Rattle.span_cli.specs.Reads.{ReadsAsked};
ghost use Rattle.span_cli.specs.Serving.{IsOfRoll, all_read, answer_of_faults, answered, asked_by, done, takes_requests};
ghost use Rattle.span_cli.specs.Sessions.{around, found_under, reads_under};
ghost use Rattle.span_cli.specs.Telling.{Serves, TakesInput, Tells};
ghost use Rattle.span_cli.specs.near.Refusals.{Loads, LoadsAll, MayGive, Opens, TellsSome, given_answer, refusal_line};
ghost use Rattle.span_cli.specs.near.Refusals.{refusal_status};
ghost use Rattle.span_cli.specs.Requests.{HasFiles};
ghost use Rattle.span_cli.specs.declared.requests.Command.TheVariants as commands;
ghost use Rattle.span_cli.specs.declared.serving.Refusal.TheVariants as refusal;
ghost use Rattle.statement.specs.AllFaults.{faults_of};
ghost use Rattle.statement.specs.Margin.{margin_of};
ghost use Rattle.statement_text.specs.Gives.{Gives};
ghost use Rattle.worker_pool.specs.declared.batch.TheConstants.{MAX_WORKERS};
ghost use Rattle.writers.specs.Streams.{Says};
ghost use Rattle.std.specs.Prelude.{◌≡◌, ◌≢◌, ◌<◌, ◌≤◌, ◌⊎◌, ◌&&◌, IfOk, IfSome, List, Some, false, is_ok, length, map, option_map, ℕ};

use crate::requests::{Command, Request, Service};
use crate::sessions::serve_session;
use arrayvec::ArrayVec;
use desks::intake::Requests;
use explanation::explaining::explain;
use result_book::books::ResultBook;
use session::session::{Opened, Session, Workers};
use sources::input::Input;
use sources::{ReadFault, Sources};
use statement::all_faults::{faults, faults_status, faults_text};
use statement::counts::check_plain;
use statement::margin::margin;
use statement::plans::plan_plain;
use statement::roll::roll;
use statement_text::fault_lines::tell_fault;
use statement_text::faults::{SpanFault, status};
use statement_text::statuses::{DONE, FILE_FAILED};
use std::alloc::{AllocError, Global};
use std::io::Write;
use std::sync::{Mutex, Wait};
use std::thread::Threads;
use std::time::Clock;
use whatif::trying::whatif;
use worker_pool::gates::Gate;
use writers::marked_writer::MarkedWriter;

/// The name of the file that is the stream of requests in a session.
const STDIN: &str = "/dev/stdin";

// Whether more requests are read from the input.
fn takes_requests(service: &Service) -> bool
    ensures { result ≡ takes_requests service.now }
{
    matches!(service, Service::Session(_))
}

// Why a request is rejected.
#[derive(Debug, Drop)]
enum Refusal<'a> {
    // A file that cannot be read, or is too long.
    File(&'a str),
    // A fault of the files, or out of memory.
    Fault(SpanFault),
}

impl<'a> From<SpanFault> for Refusal<'a> {
    ghost from_gives = { λ e answer. answer ≡ refusal.Fault e };

    fn from(fault: SpanFault) -> Refusal<'a> {
        Refusal::Fault(fault)
    }
}

// Whether a file is the stream from which a session reads its requests.
fn is_requests(is_session: bool, name: &str) -> bool
    ensures { result ≡ (is_session && is_stdin name.now) }
{
    is_session && name == STDIN
}

// The file of a name. In a session the stream of requests is a file that cannot be read.
fn load<'a, S: Sources>(
    alloc: Global,
    sources: &mut S,
    name: &'a str,
    is_session: bool,
) -> Result<Vec<u8>, Refusal<'a>>
    ensures known { IfSome (found_under is_session (S.file sources.old) name.entry.now) (λ file.
        Loads (λ bytes. bytes.items) name.entry.now file result) }
    ensures same { (n : List ℕ) → S.file sources.new n ≡ S.file sources.old n }
    ensures noted { reads_under is_session S.reads sources.old name.entry.now (is_ok result) sources.new }
{
    if is_requests(is_session, name) {
        return Err(Refusal::File(name));
    }
    match sources.read(alloc, name) {
        Ok(bytes) => Ok(bytes),
        Err(ReadFault::OutOfMemory) => Err(Refusal::Fault(SpanFault::Memory)),
        Err(_) => Err(Refusal::File(name)),
    }
}

// The files of these names, read in their order up to the first that cannot be read.
fn load_all<'a, S: Sources>(
    alloc: Global,
    sources: &mut S,
    names: &[&'a str],
    is_session: bool,
) -> Result<ArrayVec<Vec<u8>, 3, Global>, Refusal<'a>>
    requires { length names.now ≤ 3 }
    ensures count { IfOk result (λ files. length files.items ≡ length names.now) }
    ensures known { IfSome (all_read (found_under is_session (S.file sources.old)) (map (λ name. name.now) names.now)) (λ found.
        LoadsAll (λ files. map (λ file. file.items) files.items) found result) }
    ensures reads { ReadsInOrder (reads_under is_session S.reads) sources.old (map (λ name. name.now) names.now) sources.new }
    ensures same { (n : List ℕ) → S.file sources.new n ≡ S.file sources.old n }
{
    let mut files = ArrayVec::new_in(alloc);
    for name in names {
        files.push(load(alloc, sources, name, is_session)?);
    }
    Ok(files)
}

/// What all requests share: a runtime, an allocator, and the gate that workers pass.
#[derive(Drop)]
pub struct ServingMeans<'a, R, G: Gate> {
    pub rt: &'a R,
    pub alloc: Global,
    pub gate: &'a G,
}

impl<'a, R, G: Gate> ServingMeans<'a, R, G> {
    // This number of workers.
    fn workers(&self, count: usize) -> Workers<'a, R, G>
        requires { (0 < count) × (count ≤ MAX_WORKERS) }
        ensures { result.count ≡ count }
    {
        Workers {
            rt: self.rt,
            count,
            gate: self.gate,
        }
    }
}

// The answer to a command: the bytes for the output, and the status.
#[derive(Drop)]
struct Given {
    text: Vec<u8>,
    status: u8,
}

// The lines of all faults of these bytes, with the status of the first fault.
fn faults_told(alloc: Global, params: &[u8], positions: Option<&[u8]>) -> Result<Given, SpanFault>
    ensures { MayGive given_answer result (λ answer.
        answer ≡ answer_of_faults (faults_of params.now (option_map (λ bytes. bytes.now) positions.entry))) }
{
    let faults = faults(alloc, params, positions)?;
    Ok(Given {
        text: faults_text(alloc, &faults)?,
        status: faults_status(&faults),
    })
}

// The result of a roll of these bytes. Its result store (book) is new and is read by nobody.
fn rolled<R: Threads + Wait + Clock + Sync, G: Gate>(
    lent: &ServingMeans<'_, R, G>,
    params: &[u8],
    next: &[u8],
    positions: &[u8],
    workers: usize,
) -> Result<Vec<u8>, SpanFault>
    ensures { MayGive (λ text. done text.items) result (IsOfRoll workers params.now next.now positions.now) }
{
    let book = Mutex::new(ResultBook::new(lent.alloc));
    roll(
        lent.rt, lent.alloc, params, next, positions, workers, lent.gate, &book,
    )
}

// Allocates a block of 31 MiB and frees it unused. From then on GNU malloc serves blocks of up to this size from memory that
// was freed, and not from pages that the system has to clear first (docs/DECISIONS.md). It learns so from blocks of at most
// 32 MiB. If there is no memory for the block, nothing changes.
fn prefer_freed_memory(alloc: Global) {
    let _block: Result<Vec<u8>, AllocError> = Vec::with_capacity(alloc, 31 << 20);
}

// The statement of these bytes.
fn margined<R: Threads + Wait + Clock + Sync, G: Gate>(
    lent: &ServingMeans<'_, R, G>,
    params: &[u8],
    positions: &[u8],
    workers: usize,
) -> Result<Vec<u8>, SpanFault>
    ensures { Gives (λ text. text.items) result (margin_of workers params.now positions.now) }
{
    if workers == 1 {
        prefer_freed_memory(lent.alloc);
    }
    margin(lent.rt, lent.alloc, params, positions, workers, lent.gate)
}

// The text of the answer to a command other than `faults`. Its status is success.
#[tactic(auto, using(crate::proofs::ServingLemmas::of_text))]
fn text_of<R: Threads + Wait + Clock + Sync, G: Gate>(
    lent: &ServingMeans<'_, R, G>,
    command: &Command,
    files: &[Vec<u8>],
) -> Result<Vec<u8>, SpanFault>
    requires files { HasFiles (Service.Once command.now) (length files.now) }
    requires command { command.now ≢ commands.Faults }
    ensures { MayGive (λ text. done text.items) result (answered command.now (map (λ file. file.items) files.now)) }
{
    let (rt, alloc, gate) = (lent.rt, lent.alloc, lent.gate);
    match (command, files) {
        (Command::Check, [params]) => check_plain(alloc, params),
        (Command::Plan, [params]) => plan_plain(alloc, params),
        (Command::Margin(workers), [params, positions]) => margined(
            lent, params, positions, *workers,
        ),
        (Command::Explain(account), [params, positions]) => {
            explain(alloc, params, positions, account.as_ref())
        }
        (Command::Roll(workers), [params, next, positions]) => {
            rolled(lent, params, next, positions, *workers)
        }
        (Command::WhatIf(workers), [params, positions, orders]) => {
            whatif(rt, alloc, params, positions, orders, *workers, gate)
        }
        _ => unreachable!(),
    }
}

// The answer to a command, from the bytes of its files.
fn answer<R: Threads + Wait + Clock + Sync, G: Gate>(
    lent: &ServingMeans<'_, R, G>,
    command: &Command,
    files: &[Vec<u8>],
) -> Result<Given, SpanFault>
    requires { HasFiles (Service.Once command.now) (length files.now) }
    ensures { MayGive given_answer result (answered command.now (map (λ file. file.items) files.now)) }
{
    match (command, files) {
        (Command::Faults, [params]) => faults_told(lent.alloc, params, None),
        (Command::Faults, [params, positions]) => faults_told(lent.alloc, params, Some(positions)),
        _ => Ok(Given {
            text: text_of(lent, command, files)?,
            status: DONE,
        }),
    }
}

// A session over the bytes of its files.
fn open<R: Threads + Wait + Clock + Sync, G: Gate>(
    lent: &ServingMeans<'_, R, G>,
    workers: usize,
    files: &[Vec<u8>],
) -> Result<Opened, SpanFault>
    requires { length files.now ≡ 2 }
    ensures { Opens (map (λ file. file.items) files.now) result }
{
    match files {
        [params, positions] => Session::open(lent.rt, lent.alloc, params, positions, workers),
        _ => unreachable!(),
    }
}

// The status of a rejection.
fn refusal_status(refusal: &Refusal<'_>) -> u8
    ensures { result ≡ refusal_status refusal.now }
{
    match refusal {
        Refusal::File(_) => FILE_FAILED,
        Refusal::Fault(fault) => status(fault),
    }
}

// Writes the line of a rejection.
fn tell_refusal<E: Write>(refusal: &Refusal<'_>, err: &mut MarkedWriter<E>)
    ensures { Says err.old err.new (refusal_line refusal.now) }
{
    match refusal {
        Refusal::File(name) => {
            let _ = writeln!(err, "file: {name}");
        }
        Refusal::Fault(fault) => tell_fault(fault, err),
    }
}

// Writes the line of a rejection and returns its status.
fn refuse<E: Write>(refusal: Refusal<'_>, err: &mut MarkedWriter<E>) -> u8
    ensures status { result ≡ refusal_status refusal.entry }
    ensures line { Says err.old err.new (refusal_line refusal.entry) }
{
    tell_refusal(&refusal, err);
    refusal_status(&refusal)
}

// Writes the result of a request, or reports that it cannot be written, and returns the status.
fn give<W: Write, E: Write>(
    given: Given,
    out: &mut MarkedWriter<W>,
    err: &mut MarkedWriter<E>,
) -> u8
    requires { out.old.failed ≡ false }
    ensures { Tells (given_answer given) result out.old out.new err.old err.new }
{
    match out.write_all(given.text.as_slice()) {
        Ok(()) => given.status,
        Err(_) => {
            let _ = writeln!(err, "file: output");
            FILE_FAILED
        }
    }
}

// Answers a command from the bytes of its files, and returns the status.
fn serve_once<W: Write, E: Write, R: Threads + Wait + Clock + Sync, G: Gate>(
    lent: &ServingMeans<'_, R, G>,
    command: &Command,
    files: &[Vec<u8>],
    out: &mut MarkedWriter<W>,
    err: &mut MarkedWriter<E>,
) -> u8
    requires files { HasFiles (Service.Once command.now) (length files.now) }
    requires fresh { out.old.failed ≡ false }
    ensures { TellsSome (answered command.now (map (λ file. file.items) files.now)) result out.old out.new err.old err.new }
{
    match answer(lent, command, files) {
        Ok(given) => give(given, out, err),
        Err(fault) => refuse(Refusal::Fault(fault), err),
    }
}

/// Answers a request and returns the status. Its files are read once each, in their order. If one cannot be read,
/// reading stops and the line names it.
///
/// If no write fails, exactly the bytes of the answer are written to each stream, and the status is the answer's. If a
/// write of the output fails, the status is 6 and the line on `err` is `file: output`. If a write of the line fails,
/// the status does not change. No write to `out` may have failed before. The workers of a statement pass the gate
/// before each step.
///
/// A session reads requests from `input` after its two files are accepted. For a command, and for a session that is
/// rejected with status 3 or 4, `input` stays as it is. The turns in the contract are the requests, with what happened
/// while they were answered. The bytes on `out` are the answers to them, to the end of the input. If a read of the input
/// fails, the answers so far stay, the status is 6, and the line is `file: input`.
pub fn serve<S: Sources, I: Input, W: Write, E: Write, R: Threads + Wait + Clock + Sync, G: Gate>(
    lent: &ServingMeans<'_, R, G>,
    request: Request<'_>,
    sources: &mut S,
    input: &mut I,
    out: &mut MarkedWriter<W>,
    err: &mut MarkedWriter<E>,
) -> u8
    requires { out.old.failed ≡ false }
    ensures answer { (turns : List Turn)
        × Serves (around (S.file sources.old) (I.remaining input.old) turns out.new.failed) (asked_by request.entry)
        result out.old out.new err.old err.new × ReadsAsked S.reads sources.old turns (Some (asked_by request.entry)) sources.new }
    ensures input { (input.new ≡ input.old) ⊎ TakesInput (S.file sources.old) (asked_by request.entry) result }
{
    let Request { service, files } = &request;
    let files = match load_all(lent.alloc, sources, files, takes_requests(service)) {
        Ok(files) => files,
        Err(refusal) => return refuse(refusal, err),
    };
    match service {
        Service::Once(command) => serve_once(lent, command, &files, out, err),
        Service::Session(count) => match open(lent, *count, &files) {
            Ok(opened) => match Requests::new(lent.alloc, input) {
                Ok(requests) => {
                    serve_session(&lent.workers(*count), opened, sources, requests, out, err)
                }
                Err(_) => refuse(Refusal::Fault(SpanFault::Memory), err),
            },
            Err(fault) => refuse(Refusal::Fault(fault), err),
        },
    }
}
