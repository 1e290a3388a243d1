//! Sessions: a parameter set and accounts, and the answers to requests about them (docs/SESSIONS.md, Requests).
ghost use Rattle.session.specs.Answers.{State, answer_to, opened, unchanged, under_accepted, under_file};
ghost use Rattle.session.specs.Conversations.{IsTurn, answer_text, file_in, opening_text, refused_line, state_after};
ghost use Rattle.session.specs.Refusals.{refused_by};
ghost use Rattle.session.specs.Refusals as refused;
ghost use Rattle.session.specs.declared.faults.RequestFault.TheVariants as form;
ghost use Rattle.session.specs.Requests.{IsTradable, asked_by};
ghost use Rattle.session.specs.Requests.{is_memory as is_memory_fault};
ghost use Rattle.session.specs.declared.refusals.Refusal.TheVariants as refusal;
ghost use Rattle.session.specs.near.Answering.{Answers, ChangeFits, IsRead, changed, file_given, file_read, is_memory};
ghost use Rattle.session.specs.near.InUse.{state_of};
ghost use Rattle.session.specs.near.Kept.{AreOnce};
ghost use Rattle.sources.specs.Files.{File};
ghost use Rattle.statement.specs.Counts.{counts_line};
ghost use Rattle.statement_text.specs.Gives.{Gives};
ghost use Rattle.statement_text.specs.Statement.{statement_text};
ghost use Rattle.span_money.specs.LineFields.{line};
ghost use Rattle.std.specs.Arc.{arc_value};
ghost use Rattle.std.specs.Prelude.{◌≡◌, ◌++◌, [], ⊤, Err, IfErr, IfOk, List, MatchBool, Ok, OnErr, OnOk, Option, Some, false};
ghost use Rattle.std.specs.Prelude.{◌<◌, ◌≤◌, is_err, is_some, ℕ};
ghost use Rattle.worker_pool.specs.Batches.{AllFit};
ghost use Rattle.worker_pool.specs.declared.batch.TheConstants.{MAX_WORKERS};

use crate::accounts::Accounts;
use crate::answer_texts::{push_done, push_refused};
use crate::answers::{push_explanation, push_fill, push_margin_of, push_positions, push_try};
use crate::faults::RequestFault;
use crate::refusals::Refusal;
use crate::requests::{Request, read_request};
use crate::set_in_use::SetInUse;
use acceptance::accepting::{Accepted, accept_together, set_of};
use plan_compiler::set::CompiledSet;
use sources::{ReadFault, Sources};
use span_tables::portfolios::{Portfolio, Portfolios};
use statement::counts::write_counts;
use statement::margin::margin_of_portfolios;
use statement_text::faults::SpanFault;
use std::alloc::{AllocError, Global};
use std::marker::Model;
use std::sync::{Arc, Wait};
use std::thread::Threads;
use std::time::Clock;
use worker_pool::gates::Gate;

/// The file name of the stream of requests. Other names of this stream are not detected.
const STDIN: &str = "/dev/stdin";

// Capacity in bytes for a request and the longest last line of an answer. It is allocated once, so that a refusal
// allocates no more.
const ROOM: usize = 8192;

/// The workers that compute the statement of all accounts: 1 to 16 of them, on a runtime. They call the hook `gate`
/// before each step.
#[derive(Drop)]
pub struct Workers<'a, R, G: Gate> {
    pub rt: &'a R,
    pub count: usize,
    pub gate: &'a G,
    ghost in_range: { (0 < count) × (count ≤ MAX_WORKERS) },
}

/// The change that a request makes to a session.
#[derive(Drop)]
pub(crate) enum Change {
    Nothing,
    /// The portfolio replaces the holdings of its account.
    Account(Portfolio),
    /// There is another parameter set, under which these are the accounts.
    Set(Box<SetInUse>, Accounts),
}

/// A session: an accepted parameter set, and accounts with their holdings, in their order. Contracts see both.
#[derive(Drop)]
pub struct Session {
    alloc: Global,
    set: Box<SetInUse>,
    accounts: Accounts,
}

impl Model for Session {
    ghost use Rattle.session.specs.Answers.{State};
    ghost use Rattle.session.specs.near.InUse.{state_of};
    ghost use Rattle.worker_pool.specs.Batches.{AllFit};

    ghost Value = { State };

    ghost view = { λ s. state_of s.set.value s.accounts };

    ghost invariant = { λ s. AllFit s.set.value s.accounts };
}

/// An open session, and its first answer, which is the answer to request 0.
#[derive(Drop)]
pub struct Opened {
    pub session: Session,
    pub text: Vec<u8>,
}

// Appends the line of counts of a parameter set.
fn push_counts(alloc: Global, out: &mut Vec<u8>, set: &SetInUse) -> Result<(), AllocError>
    ensures { OnOk result (out.new.items ≡ out.old.items ++ line (counts_line set.now.tables)) }
{
    let counts = write_counts(alloc, set.tables())?;
    out.extend_from_slice(&counts)
}

// The answer that opens a session. The vector has capacity for the last line of any answer.
fn opening(alloc: Global, set: &SetInUse) -> Result<Vec<u8>, AllocError>
    ensures { (s : State) → s.tables ≡ set.now.tables → IfOk result (λ text. text.items ≡ opening_text s) }
{
    let mut text = Vec::with_capacity(alloc, ROOM)?;
    push_counts(alloc, &mut text, set)?;
    push_done(&mut text, 0)?;
    Ok(text)
}

// Compiles the parameter set of a file that was read, or returns why it is rejected. The file has this name.
fn set_read<'a>(
    alloc: Global,
    name: &'a str,
    read: Result<Vec<u8>, ReadFault>,
) -> Result<Arc<CompiledSet>, Refusal<'a>>
    ensures set { IfOk result (λ set. (s : State) → under_file s name.now (file_read (λ v. v.items) read)
        ≡ under_accepted s (Ok (arc_value set).tables)) }
    ensures refused { IfErr result (λ r. MatchBool (is_memory r) ⊤ ((s : State)
        → under_file s name.now (file_read (λ v. v.items) read) ≡ Err (refused_by r))) }
{
    let params = match read {
        Ok(params) => params,
        Err(ReadFault::OutOfMemory) => return Err(Refusal::Memory),
        Err(_) => return Err(Refusal::File { name }),
    };
    match set_of(alloc, &params) {
        Ok(set) => Ok(set),
        Err(fault) if fault.is_memory() => Err(Refusal::Memory),
        Err(fault) => Err(Refusal::Parameters(fault)),
    }
}

// Reads the file that a request asks for, if it asks for one and this is not the stream of requests.
fn read_asked<S: Sources>(
    alloc: Global,
    sources: &mut S,
    request: &Request<'_>,
) -> Option<Result<Vec<u8>, ReadFault>>
    ensures asked { is_some result ≡ is_some (file_in (Ok (asked_by request.now))) }
    ensures read { IsRead (S.file sources.old) S.reads sources.old (file_in (Ok (asked_by request.now)))
        (file_given (λ v. v.items) result) sources.new }
    ensures same { (n : List ℕ) → S.file sources.new n ≡ S.file sources.old n }
{
    match request {
        Request::Set { file } if *file != STDIN => Some(sources.read(alloc, file)),
        _ => None,
    }
}

// The refusal of a request with this fault.
fn refusal_of(fault: RequestFault) -> Refusal<'static>
    ensures { MatchBool (is_memory_fault fault) (result ≡ refusal.Memory) (result ≡ refusal.Form fault) }
{
    match fault {
        RequestFault::OutOfMemory => Refusal::Memory,
        fault => Refusal::Form(fault),
    }
}

// Replaces the content of `out` by the line of a refusal.
fn refuse(out: &mut Vec<u8>, number: u64, refusal: Refusal<'_>) -> Result<(), AllocError>
    ensures { OnOk result ((is_memory refusal.entry ≡ false) × (out.new.items ≡ line (refused_line number (refused_by refusal.entry)))) }
{
    if matches!(refusal, Refusal::Memory) {
        return Err(AllocError);
    }
    out.clear();
    push_refused(out, number, &refusal)
}

impl Session {
    /// Opens a session over two files, or returns the first fault in reading the parameters, checking them, reading the
    /// positions and binding them. Fails with `Memory` if memory runs out.
    pub fn open<R: Threads + Sync>(
        rt: &R,
        alloc: Global,
        params: &[u8],
        positions: &[u8],
        workers: usize,
    ) -> Result<Opened, SpanFault>
        ensures state { Gives (λ (o : Opened). o.session) result (opened params.now positions.now) }
        ensures text { IfOk result (λ o. o.text.items ≡ opening_text o.session) }
    {
        let Accepted {
            set,
            portfolios,
            ..
        } = accept_together(rt, alloc, params, positions, workers)?;
        Ok(Session::over(alloc, set, portfolios)?)
    }

    // Opens a session over a compiled parameter set and the portfolios of its accounts.
    fn over(
        alloc: Global,
        set: Arc<CompiledSet>,
        portfolios: Portfolios,
    ) -> Result<Opened, AllocError>
        requires fits { AllFit (arc_value set) portfolios }
        requires once { AreOnce portfolios }
        ensures state { IfOk result (λ o. o.session ≡ state_of (arc_value set) portfolios) }
        ensures text { IfOk result (λ o. o.text.items ≡ opening_text o.session) }
    {
        let accounts = Accounts::new(alloc, portfolios)?;
        let set = SetInUse::new(alloc, set)?;
        let text = opening(alloc, &*set)?;
        let session = Session {
            alloc,
            set,
            accounts,
        };
        Ok(Opened { session, text })
    }

    // Appends the statement of all accounts.
    fn push_margin<R: Threads + Wait + Clock + Sync, G: Gate>(
        &self,
        workers: &Workers<'_, R, G>,
        out: &mut Vec<u8>,
    ) -> Result<(), Refusal<'static>>
        requires { out.old.items ≡ [] }
        ensures { Answers (λ done. self.now) result out.new.items (unchanged self.now (statement_text self.now.tables self.now.accounts)) }
    {
        let portfolios = self.accounts.portfolios(self.alloc)?;
        let (rt, gate) = (workers.rt, workers.gate);
        let text = margin_of_portfolios(
            rt,
            self.alloc,
            self.set.set(),
            portfolios,
            workers.count,
            gate,
        )?;
        out.extend_from_slice(&text)?;
        Ok(())
    }

    // Compiles the parameter set of a file that was read, carries the accounts over to it, and appends its line of
    // counts.
    fn push_set<'a>(
        &self,
        out: &mut Vec<u8>,
        name: &'a str,
        read: Result<Vec<u8>, ReadFault>,
    ) -> Result<Change, Refusal<'a>>
        requires { out.old.items ≡ [] }
        ensures answer { Answers (changed self.now) result out.new.items (under_file self.now name.now (file_read (λ v. v.items) read)) }
        ensures fits { IfOk result (ChangeFits self.now) }
    {
        let set = set_read(self.alloc, name, read)?;
        let set = SetInUse::new(self.alloc, set)?;
        let (old, new) = (&*self.set, &*set);
        let accounts = self
            .accounts
            .under_set(self.alloc, old.tables(), new.tables())?;
        push_counts(self.alloc, out, new)?;
        Ok(Change::Set(set, accounts))
    }

    // Appends the lines of the answer to a request, and returns the change that it makes. `file` is the result of
    // reading the file that the request asks for. A SET without one names the stream of requests.
    #[tactic(auto, unfolding(crate::specs::Answers::answer_to))]
    fn push_lines<'a, R: Threads + Wait + Clock + Sync, G: Gate>(
        &mut self,
        workers: &Workers<'_, R, G>,
        out: &mut Vec<u8>,
        request: &Request<'a>,
        file: Option<Result<Vec<u8>, ReadFault>>,
    ) -> Result<Change, Refusal<'a>>
        requires empty { out.old.items ≡ [] }
        requires tradable { IsTradable request.now }
        requires read { is_some file ≡ is_some (file_in (Ok (asked_by request.now))) }
        ensures same { self.new ≡ self.old }
        ensures answer { Answers (changed self.old) result out.new.items
            (answer_to self.old (file_given (λ v. v.items) file) (asked_by request.now)) }
        ensures fits { IfOk result (ChangeFits self.old) }
    {
        let (alloc, set, accounts) = (self.alloc, &mut *self.set, &self.accounts);
        match request {
            Request::Margin => self.push_margin(workers, out)?,
            Request::MarginOf { account } => push_margin_of(alloc, out, set, accounts, account)?,
            Request::Explain { account } => push_explanation(alloc, out, set, accounts, account)?,
            Request::Try {
                order,
                account,
                trades,
            } => push_try(out, set, accounts, order, account, trades)?,
            Request::Fill { account, trades } => {
                let after = push_fill(out, set, accounts, account, trades)?;
                return Ok(Change::Account(after));
            }
            Request::Set { file: name } => {
                return match file {
                    Some(read) => self.push_set(out, name, read),
                    None => Err(Refusal::File { name: *name }),
                };
            }
            Request::Positions => push_positions(out, set, accounts)?,
        }
        Ok(Change::Nothing)
    }

    // Makes a change. If memory runs out, the session stays as it was.
    fn apply(&mut self, change: Change) -> Result<(), AllocError>
        requires { ChangeFits self.old change }
        ensures done { OnOk result (self.new ≡ changed self.old change) }
        ensures refused { OnErr result (self.new ≡ self.old) }
    {
        match change {
            Change::Nothing => {}
            Change::Account(after) => self.accounts.put(after)?,
            Change::Set(set, accounts) => {
                self.set = set;
                self.accounts = accounts;
            }
        }
        Ok(())
    }

    // Answers a request, or returns why it is rejected.
    fn answer_request<'a, R: Threads + Wait + Clock + Sync, G: Gate>(
        &mut self,
        workers: &Workers<'_, R, G>,
        out: &mut Vec<u8>,
        number: u64,
        request: Request<'a>,
        file: Option<Result<Vec<u8>, ReadFault>>,
    ) -> Result<(), Refusal<'a>>
        requires empty { out.old.items ≡ [] }
        requires tradable { IsTradable request }
        requires read { is_some file ≡ is_some (file_in (Ok (asked_by request))) }
        ensures text { OnOk result (out.new.items
            ≡ answer_text number (answer_to self.old (file_given (λ v. v.items) file) (asked_by request.entry))) }
        ensures state { OnOk result (self.new
            ≡ state_after self.old (answer_to self.old (file_given (λ v. v.items) file) (asked_by request.entry))) }
        ensures same { OnErr result (self.new ≡ self.old) }
        ensures refused { IfErr result (λ r. MatchBool (is_memory r) ⊤
            (answer_to self.old (file_given (λ v. v.items) file) (asked_by request.entry) ≡ Err (refused_by r))) }
    {
        let change = self.push_lines(workers, out, &request, file)?;
        push_done(out, number)?;
        self.apply(change)?;
        Ok(())
    }

    /// Answers the request with this number and line. The text of the answer replaces the content of `out`. If memory
    /// runs out, the session stays unchanged, and the caller has to write the refusal.
    pub fn answer<R: Threads + Wait + Clock + Sync, G: Gate, S: Sources>(
        &mut self,
        workers: &Workers<'_, R, G>,
        sources: &mut S,
        out: &mut Vec<u8>,
        number: u64,
        line: &[u8],
    ) -> Result<(), AllocError>
        ensures turn { (file : Option File) × IsTurn (S.file sources.old) S.reads sources.old self.old number
            (record { request = Some line.now; file = file; is_out_of_memory = is_err result })
            sources.new self.new out.new.items }
        ensures same { (n : List ℕ) → S.file sources.new n ≡ S.file sources.old n }
    {
        out.clear();
        let answered = match read_request(self.alloc, line) {
            Ok(request) => {
                let file = read_asked(self.alloc, sources, &request);
                self.answer_request(workers, out, number, request, file)
            }
            Err(fault) => Err(refusal_of(fault)),
        };
        match answered {
            Ok(()) => Ok(()),
            Err(refusal) => refuse(out, number, refusal),
        }
    }
}

/// Answers the request with this number, which is too long. The text of the answer replaces the content of `out`.
pub fn refuse_long(out: &mut Vec<u8>, number: u64) -> Result<(), AllocError>
    ensures { OnOk result (out.new.items ≡ line (refused_line number (refused.Form form.LineTooLong))) }
{
    refuse(out, number, Refusal::Form(RequestFault::LineTooLong))
}
