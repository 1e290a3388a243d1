//! Requests to the program.
ghost use Rattle.span_cli.specs.Requests.{HasFiles, HasWorkers};
ghost use Rattle.std.specs.Prelude.{◌≡◌, length, map};

use arrayvec::ArrayVec;
use span_tables::name::Name;

/// A command that is answered once.
#[derive(Debug, Drop)]
pub enum Command {
    /// The counts of a parameter file.
    Check,
    /// The steps of the compiled plan of a parameter file.
    Plan,
    /// The statement of a position file under a parameter file, computed by 1 to 16 workers.
    Margin(usize),
    /// The statement with the reasons for every figure, for all accounts or for one.
    Explain(Option<Name>),
    /// The statement of a position file under a parameter file, then its statement under the next, computed by 1 to 16
    /// workers.
    Roll(usize),
    /// What each order of a file would do to the margin of its account, computed by 1 to 16 workers.
    WhatIf(usize),
    /// All faults of a parameter file, and of a position file if there is one.
    Faults,
}

/// What a request asks for.
#[derive(Debug, Drop)]
pub enum Service {
    /// The answer to a command.
    Once(Command),
    /// The answers to requests about the accounts of a position file under a parameter file. A request for all accounts
    /// is shared by 1 to 16 workers.
    Session(usize),
}

/// A request to the program, with the names of its files in the order in which they are read.
#[derive(Debug, Drop)]
pub struct Request<'a> {
    pub(crate) service: Service,
    pub(crate) files: ArrayVec<&'a str, 3>,
    ghost has_files: { HasFiles service (length files.items) },
    ghost has_workers: { HasWorkers service },
}

impl<'a> Request<'a> {
    /// Creates a request of this service for these files.
    pub fn new(service: Service, files: &[&'a str]) -> Request<'a>
        requires files { HasFiles service (length files.now) }
        requires workers { HasWorkers service }
        ensures service { result.service ≡ service }
        ensures files { map (λ name. name.now) result.files.items ≡ map (λ name. name.now) files.now }
    {
        Request {
            service,
            files: ArrayVec::try_from(files).unwrap(),
        }
    }
}
