//! Parses the arguments of a command line, and answers them.
ghost use Rattle.clap.specs.Words.{FailsBy, app_of, first_of, found_of, kind_of, new_app, rows_of, rule_of};
ghost use Rattle.clap.specs.Words.{subcommand_of, subcommand_rows_of, with_rule, with_subcommand};
ghost use Rattle.clap.specs.declared.builder.command.Command.TheViews.{out-Command as fields_of};
ghost use Rattle.session.specs.Conversations.{Turn};
ghost use Rattle.span_cli.specs.CommandLines.{AnswersLine};
ghost use Rattle.span_cli.specs.Serving.{asked_by};
ghost use Rattle.span_cli.specs.Sessions.{around};
ghost use Rattle.span_cli.specs.Telling.{IsMistake, IsShown, RefusesWords, TakesInputFor, no_text_line};
ghost use Rattle.span_cli.specs.Words.{account_in, account_rule, app_without_commands, asked_among, asked_in, commands, form_kinds};
ghost use Rattle.span_cli.specs.Words.{in_range, is_request, joined_words, kinds_of, number_in, request_in, span_app};
ghost use Rattle.span_cli.specs.Words.{needed, optional, with_commands, with_rules, workers_in, workers_rule};
ghost use Rattle.span_cli.specs.Requests.{HasFiles, HasWorkers};
ghost use Rattle.span_cli.specs.declared.requests.Command.TheVariants as command;
ghost use Rattle.span_cli.specs.declared.requests.Service.TheVariants as service;
ghost use Rattle.span_cli.specs.near.Rows.{asked_for, file_rule_of, option_rule, row_app};
ghost use Rattle.writers.specs.Streams.{Says};
ghost use Rattle.statement_text.specs.FaultLines.{memory_line};
ghost use Rattle.std.specs.IoError.{error_kind};
ghost use Rattle.std.specs.declared.io.ErrorKind.TheVariants as kind;
ghost use Rattle.std.specs.Prelude.{◌≡◌, ◌≢◌, ◌<◌, ◌≤◌, ◌⊎◌, [], ◌∷◌, ◌++◌, IfErr, IfOk, IfSome, List, Some, codes, false, map};
ghost use Rattle.std.specs.Prelude.{option_and_then, option_map, true};

use crate::joining::join_words;
use crate::outputs::{ErrorStream, OutputStream};
use crate::requests;
use crate::requests::{Request, Service};
use crate::serving::{ServingMeans, serve};
use clap::builder::ValueParser;
use clap::error::ErrorKind;
use clap::{Arg, ArgMatches, Command, Error};
use sources::Sources;
use sources::input::Input;
use span_tables::name::Name;
use statement_text::statuses::{DONE, FILE_FAILED, OUT_OF_MEMORY, USAGE};
use std::alloc::{AllocError, Global};
use std::convert::AsStr;
use std::io;
use std::io::Write;
use std::sync::Wait;
use std::thread::Threads;
use std::time::Clock;
use worker_pool::batch::MAX_WORKERS;
use worker_pool::gates::Gate;
use writers::marked_writer::MarkedWriter;

/// The program's version, and the profiles of the method that it supports (docs/METHOD.md).
const VERSION: &str = "1.4.0 (profile 1 and profile 2)";

const SPAN_MORE: &str = "\
Common options:
      --workers <N>     Worker threads, 1 to 16 (margin, whatif, session, roll)
      --account <NAME>  Explain only this account (explain)

Examples:
  span margin params.csv positions.csv --workers 4 >statement.csv
  span explain params.csv positions.csv --account RIVER-01

Exit status:
  0  success; `faults` found no fault
  2  usage error
  3  a parameter file was rejected
  4  the position or order file was rejected, or it lacks the account
  5  out of memory
  6  a file could not be read, or the output could not be written
  7  `roll` only: an internal error

`span COMMAND --help` describes a command.
`man span` describes the files, the output, the faults (input errors) and the limits.";

const ACCOUNT_HELP: &str = "Explain only this account; by default all accounts are explained";

const BAD_ACCOUNT: &str =
    "invalid value for '--account <NAME>': a name is 1 to 16 bytes of A to Z, 0 to 9, _ and -";

const WORKERS_HELP: &str = "Worker threads, 1 to 16; use at most the number of processors";

// The argument for a file: its name and help text, and whether it is required.
#[derive(Clone, Copy)]
struct FileArg {
    id: &'static str,
    help: &'static str,
    required: bool,
}

// An option of a command.
#[derive(Clone, Copy)]
enum OptionArg {
    // The number of workers that share the accounts.
    Workers,
    // The account to explain.
    Account,
}

// A command: its help texts, its files in their order, and its option.
#[derive(Clone, Copy)]
struct CommandRow {
    name: &'static str,
    about: &'static str,
    more: &'static str,
    files: &'static [FileArg],
    option: Option<OptionArg>,
}

const PARAMS: FileArg = FileArg {
    id: "PARAMS",
    help: "Parameter file (CSV): commodities, contracts, tiers and spreads of a parameter set",
    required: true,
};

const NEXT: FileArg = FileArg {
    id: "NEXT",
    help: "Parameter file (CSV) of the next parameter set",
    required: true,
};

const POSITIONS: FileArg = FileArg {
    id: "POSITIONS",
    help: "Position file (CSV): account, contract, quantity in contracts (negative if short)",
    required: true,
};

const POSITIONS_TOO: FileArg = FileArg {
    id: "POSITIONS",
    help: "Position file (CSV): account, contract, quantity in contracts (negative if short)",
    required: false,
};

const ORDERS: FileArg = FileArg {
    id: "ORDERS",
    help: "Order file (CSV): order, account, contract, quantity in contracts (negative if sold)",
    required: true,
};

const MARGIN: CommandRow = CommandRow {
    name: "margin",
    about: "Print the margin statement of every account",
    more: "\
Print an R line for each commodity that an account holds, then a T line with the account's total:
  R,account,set,commodity,scan,active,intra,delivery,credit,minimum,requirement
  T,account,set,total
If the parameter set has option values (version 2), the T line has three more fields:
  T,account,set,total,value,due,excess
`value` is what the account's options are worth. `due` is the total minus the value, and `excess` is the value
minus the total; the one that would be negative is 0.
`active` is the scenario, 1 to 16, that decides the scan risk. Amounts are whole numbers in the minor unit of the
currency, such as cents.

Example:
  span margin params.csv positions.csv --workers 4 >statement.csv

Exit status:
  0  success
  2  usage error
  3  the parameter file was rejected
  4  the position file was rejected
  5  out of memory
  6  a file could not be read, or the output could not be written

See `man span` for the files, the output and the faults.",
    files: &[PARAMS, POSITIONS],
    option: Some(OptionArg::Workers),
};

const EXPLAIN: CommandRow = CommandRow {
    name: "explain",
    about: "Print the statement with the reasons for every figure",
    more: "\
For each commodity that an account holds, print the lines from which its R line can be computed by hand, then the
R line. After the commodities of an account, print its T line. The first fields are the word of the line, account,
set and, except in T, commodity. The other fields are:
  HELD    contract,type,month,quantity; if the set has option values (version 2), also the value
  SUMS    the sixteen scenario sums
  SCAN    scan risk,active scenario,paired scenario,price risk
  MONTH   month,delta,delta left after spreads
  INTRA   priority,long side,spreads,rate,charge
  SPOT    month,used,spread rate,left,outright rate,charge
  INTER   priority,long side,spreads,delta used,basis points
  CREDIT  price risk,net delta,weight
  SHORT   short calls,short puts,method,rate
  R, T    as `margin` prints them

Example:
  span explain params.csv positions.csv --account RIVER-01

Exit status:
  0  success
  2  usage error
  3  the parameter file was rejected
  4  the position file was rejected, or it lacks the account
  5  out of memory
  6  a file could not be read, or the output could not be written

See `man span` for the files, the output and the faults.",
    files: &[PARAMS, POSITIONS],
    option: Some(OptionArg::Account),
};

const WHAT_IF: CommandRow = CommandRow {
    name: "whatif",
    about: "Print what each order would do to the margin of its account",
    more: "\
Evaluate each order by itself on the positions of its account. Print a CHANGE line for each commodity whose
requirement changes, then an ORDER line for the account's total:
  CHANGE,order,account,set,commodity,before,after,change
  ORDER,order,account,set,before,after,change
If the parameter set has option values (version 2), the ORDER line also has what the account has to post: its
total minus its option value, but at least 0:
  ORDER,order,account,set,before,after,change,due before,due after,due change
All records with the same order name are one order. `before` is without the order, `after` is with it, and
`change` is after minus before.

Example:
  span whatif params.csv positions.csv orders.csv
  echo BUY,RIVER-01,CLZ5,6 | span whatif params.csv positions.csv /dev/stdin

Exit status:
  0  success
  2  usage error
  3  the parameter file was rejected
  4  the position or order file was rejected
  5  out of memory
  6  a file could not be read, or the output could not be written

See `man span` for the files, the output and the faults.",
    files: &[PARAMS, POSITIONS, ORDERS],
    option: Some(OptionArg::Workers),
};

const SESSION: CommandRow = CommandRow {
    name: "session",
    about: "Answer requests on standard input",
    more: "\
Read both files as `margin` does. Then read requests from standard input until it ends, one per line, and answer
each before the next is read:
  MARGIN                               the statement of all accounts
  MARGIN,account                       the lines of one account
  EXPLAIN,account                      the lines that `explain` prints for it
  TRY,order,account,contract,quantity  the lines that `whatif` prints for this order
  FILL,account,contract,quantity       add the quantity to the position; prints the new T line
  SET,file                             use another parameter file; prints the line of `check`
  POSITIONS                            all positions, as records of a position file
TRY and FILL accept up to 64 pairs of contract and quantity. The last line of an answer is `done` with the number
of the request. A rejected request changes nothing. Its answer is one line with the reason:
  done,1
  refused,2,request: B1 UnknownContract at field 3
The first answer has number 0: the line that `check` prints for PARAMS, and `done,0`.

Example:
  echo MARGIN,RIVER-01 | span session params.csv positions.csv

Exit status:
  0  the input ended, and every request was answered
  2  usage error
  3  the parameter file was rejected
  4  the position file was rejected
  5  out of memory
  6  a file or the requests could not be read, or the output could not be written

See `man span` for the files, the requests, the answers and the faults.",
    files: &[PARAMS, POSITIONS],
    option: Some(OptionArg::Workers),
};

const ROLL: CommandRow = CommandRow {
    name: "roll",
    about: "Print the statement under one parameter set, then under the next",
    more: "\
Print the statement under PARAMS, then the statement under NEXT, for the same positions. The lines are as `margin`
prints them. Their third field, the id of the parameter set, says which statement they belong to.

Example:
  span roll friday.csv monday.csv positions.csv >statements.csv

Exit status:
  0  success
  2  usage error
  3  a parameter file was rejected
  4  the position file was rejected, under PARAMS or NEXT
  5  out of memory
  6  a file could not be read, or the output could not be written
  7  an internal error: the result store or the published parameter set failed

See `man span` for the files, the output and the faults.",
    files: &[PARAMS, NEXT, POSITIONS],
    option: Some(OptionArg::Workers),
};

const FAULTS: CommandRow = CommandRow {
    name: "faults",
    about: "Print every error in the files",
    more: "\
Print a line for each fault, which is an input error with a code. The first line is the one that `margin` prints:
  parameters: C3 DuplicateContract at record 7
  positions: B1 UnknownContract at record 2 account X
P1 to P8: each record of PARAMS that cannot be read has one line, with its lowest-numbered fault.
C1 to C11: if every record of PARAMS can be read, each rule has a line for each record that breaks it.
Q1 to Q5: each record of POSITIONS that cannot be read has one line, whatever PARAMS is.
B1 to B3: if there are no other faults, each fault of the positions under these parameters has a line.

Example:
  span faults params.csv positions.csv

Exit status:
  0  there is no fault, and nothing is printed
  2  usage error
  3  PARAMS has a fault
  4  only POSITIONS has a fault
  5  out of memory
  6  a file could not be read, or the output could not be written

See `man span` for the meaning of each code.",
    files: &[PARAMS, POSITIONS_TOO],
    option: None,
};

const CHECK: CommandRow = CommandRow {
    name: "check",
    about: "Check a parameter set, and print its counts",
    more: "\
Print one line with the id of the parameter set and the number of its records of each kind:
  OK,set,commodities,contracts,tiers,intra,spots,inter
If the file is rejected, print its first fault and the number of the record on standard error. `span faults`
prints all faults.

Example:
  span check params.csv

Exit status:
  0  success
  2  usage error
  3  the parameter file was rejected
  5  out of memory
  6  a file could not be read, or the output could not be written

See `man span` for the records and the faults.",
    files: &[PARAMS],
    option: None,
};

const PLAN: CommandRow = CommandRow {
    name: "plan",
    about: "Print the calculation steps of a parameter set",
    more: "\
Print a line for each step of the compiled plan: its number, its operation, and the numbers of its inputs:
  7 Final(0) 2 4 5 6 19
If the file is rejected, the line on standard error is the one that `check` prints.

Example:
  span plan params.csv

Exit status:
  0  success
  2  usage error
  3  the parameter file was rejected
  5  out of memory
  6  a file could not be read, or the output could not be written

See `man span` for the records and the faults.",
    files: &[PARAMS],
    option: None,
};

// The commands, in the order of the help text.
const COMMANDS: [CommandRow; 8] = [MARGIN, EXPLAIN, WHAT_IF, SESSION, ROLL, FAULTS, CHECK, PLAN];

// The argument for a file.
fn file_arg<'a>(alloc: Global, file: &FileArg) -> Arg<'a>
    ensures rule { rule_of result ≡ file_rule_of file.now }
    ensures local { result.global ≡ false }
{
    Arg::new(alloc, file.id)
        .required(file.required)
        .help(file.help)
}

// The option for the number of workers.
fn workers<'a>(alloc: Global) -> Arg<'a>
    ensures rule { rule_of result ≡ workers_rule }
    ensures local { result.global ≡ false }
{
    Arg::new(alloc, "workers")
        .long("workers")
        .value_name("N")
        .value_parser(ValueParser::unsigned(1, MAX_WORKERS as u64))
        .default_value("1")
        .help(WORKERS_HELP)
}

// The option for the account.
fn account<'a>(alloc: Global) -> Arg<'a>
    ensures rule { rule_of result ≡ account_rule }
    ensures local { result.global ≡ false }
{
    Arg::new(alloc, "account")
        .long("account")
        .value_name("NAME")
        .help(ACCOUNT_HELP)
}

// A command with one more argument.
fn with_arg<'a>(command: Command<'a>, arg: Arg<'a>) -> Result<Command<'a>, AllocError>
    requires command { (fields_of command).has_globals ≡ false }
    requires arg { arg.global ≡ false }
    ensures shape { IfOk result (λ c. app_of c ≡ with_rule (app_of command.entry) (rule_of arg.entry)) }
    ensures local { IfOk result (λ c. (fields_of c).has_globals ≡ false) }
{
    let command = command.arg(arg)?;
    Ok(command)
}

// The program with one more command.
fn with_command<'a>(program: Command<'a>, command: Command<'a>) -> Result<Command<'a>, AllocError>
    requires { (fields_of command).has_globals ≡ false }
    ensures { IfOk result (λ p. app_of p ≡ with_subcommand (app_of program.entry) (app_of command.entry).top) }
{
    let program = program.subcommand(command)?;
    Ok(program)
}

// An option.
fn option_arg<'a>(alloc: Global, option: OptionArg) -> Arg<'a>
    ensures rule { rule_of result ≡ option_rule option }
    ensures local { result.global ≡ false }
{
    match option {
        OptionArg::Workers => workers(alloc),
        OptionArg::Account => account(alloc),
    }
}

// A command with the arguments for its files.
fn with_files<'a>(alloc: Global, row: &CommandRow) -> Result<Command<'a>, AllocError>
    ensures shape { IfOk result (λ c. app_of c
        ≡ with_rules (new_app row.now.name.now) (map file_rule_of row.now.files.now)) }
    ensures local { IfOk result (λ c. (fields_of c).has_globals ≡ false) }
{
    let mut command = Command::new(alloc, row.name)
        .about(row.about)
        .after_long_help(row.more);
    for file in row.files {
        command = with_arg(command, file_arg(alloc, file))?;
    }
    Ok(command)
}

// The command of a row.
fn command<'a>(alloc: Global, row: &CommandRow) -> Result<Command<'a>, AllocError>
    ensures shape { IfOk result (λ c. app_of c ≡ row_app row.now) }
    ensures local { IfOk result (λ c. (fields_of c).has_globals ≡ false) }
{
    let command = with_files(alloc, row)?;
    match row.option {
        Some(option) => with_arg(command, option_arg(alloc, option)),
        None => Ok(command),
    }
}

// The program without its commands.
fn without_commands<'a>(alloc: Global) -> Command<'a>
    ensures { app_of result ≡ app_without_commands }
{
    Command::new(alloc, "span")
        .about("Compute SPAN margin requirements for accounts of futures and options")
        .after_long_help(SPAN_MORE)
        .version(VERSION)
        .subcommand_required(true)
}

// A program with the commands of these rows.
fn with_rows<'a>(
    alloc: Global,
    mut program: Command<'a>,
    rows: &[CommandRow],
) -> Result<Command<'a>, AllocError>
    ensures { IfOk result (λ p. app_of p ≡ with_commands (app_of program.entry) (map row_app rows.now)) }
{
    for row in rows {
        let added = command(alloc, row)?;
        program = with_command(program, added)?;
    }
    Ok(program)
}

fn span<'a>(alloc: Global) -> Result<Command<'a>, AllocError>
    ensures shape { IfOk result (λ c. app_of c ≡ span_app) }
{
    with_rows(alloc, without_commands(alloc), &COMMANDS)
}

fn text<'a>(matches: &ArgMatches<'a>, id: &str) -> Option<&'a str>
    ensures { option_map (λ text. text.now) result ≡ first_of id.now (rows_of (found_of matches.now)) }
{
    matches.get_str(id)
}

// The number that a text spells.
fn number(text: &str) -> Option<usize>
    ensures { result ≡ number_in text.now }
{
    text.parse::<usize>().ok()
}

// The number, if it is a number of workers.
fn in_range(count: usize) -> Option<usize>
    ensures same { result ≡ in_range count }
    ensures range { IfSome result (λ n. (0 < n) × (n ≤ MAX_WORKERS)) }
{
    if count == 0 || count > MAX_WORKERS {
        return None;
    }
    Some(count)
}

// The number of workers in the arguments, 1 to 16.
fn workers_asked(matches: &ArgMatches<'_>) -> Option<usize>
    ensures asked { result ≡ workers_in (rows_of (found_of matches.now)) }
    ensures range { IfSome result (λ n. (0 < n) × (n ≤ MAX_WORKERS)) }
{
    in_range(number(text(matches, "workers")?)?)
}

// The account in the arguments, if there is one; `None` if it is not a valid name.
fn account_asked(matches: &ArgMatches<'_>) -> Option<Option<Name>>
    ensures { result ≡ account_in (rows_of (found_of matches.now)) }
{
    match text(matches, "account") {
        Some(text) => Some(Some(Name::new(text.as_bytes())?)),
        None => Some(None),
    }
}

// The request for this service and the parameter file.
fn on_params<'a>(service: Service, matches: &ArgMatches<'a>) -> Option<Request<'a>>
    requires files { HasFiles service 1 }
    requires workers { HasWorkers service }
    ensures { option_map asked_by result ≡ asked_for service (needed (codes "PARAMS" ∷ [])) (rows_of (found_of matches.now)) }
{
    let params = text(matches, PARAMS.id)?;
    Some(Request::new(service, &[params]))
}

// The request for this service, the parameter file and the position file.
fn on_positions<'a>(service: Service, matches: &ArgMatches<'a>) -> Option<Request<'a>>
    requires files { HasFiles service 2 }
    requires workers { HasWorkers service }
    ensures { option_map asked_by result
        ≡ asked_for service (needed (codes "PARAMS" ∷ codes "POSITIONS" ∷ [])) (rows_of (found_of matches.now)) }
{
    let params = text(matches, PARAMS.id)?;
    let positions = text(matches, POSITIONS.id)?;
    Some(Request::new(service, &[params, positions]))
}

// The request for this service, the parameter file and two more files.
fn on_three<'a>(
    service: Service,
    second: &str,
    third: &str,
    matches: &ArgMatches<'a>,
) -> Option<Request<'a>>
    requires files { HasFiles service 3 }
    requires workers { HasWorkers service }
    ensures { option_map asked_by result
        ≡ asked_for service (needed (codes "PARAMS" ∷ second.now ∷ third.now ∷ [])) (rows_of (found_of matches.now)) }
{
    let params = text(matches, PARAMS.id)?;
    let second = text(matches, second)?;
    let third = text(matches, third)?;
    Some(Request::new(service, &[params, second, third]))
}

// The request for the faults of the parameter file, and of the position file if there is one.
fn for_faults<'a>(matches: &ArgMatches<'a>) -> Option<Request<'a>>
    ensures { option_map asked_by result ≡ asked_for (service.Once command.Faults)
        (needed (codes "PARAMS" ∷ []) ++ optional (codes "POSITIONS" ∷ [])) (rows_of (found_of matches.now)) }
{
    let params = text(matches, PARAMS.id)?;
    let faults = Service::Once(requests::Command::Faults);
    match text(matches, POSITIONS_TOO.id) {
        Some(positions) => Some(Request::new(faults, &[params, positions])),
        None => Some(Request::new(faults, &[params])),
    }
}

// The request that a command of this name makes.
#[tactic(auto, using(crate::proofs::WordsLaws::nothing_asked))]
fn request_under<'a>(name: &str, matches: &ArgMatches<'a>) -> Option<Request<'a>>
    ensures { option_map asked_by result ≡ asked_among commands name.now (rows_of (found_of matches.now)) }
{
    match name {
        "margin" => {
            let workers = workers_asked(matches)?;
            on_positions(Service::Once(requests::Command::Margin(workers)), matches)
        }
        "explain" => {
            let account = account_asked(matches)?;
            on_positions(Service::Once(requests::Command::Explain(account)), matches)
        }
        "whatif" => {
            let service = Service::Once(requests::Command::WhatIf(workers_asked(matches)?));
            on_three(service, POSITIONS.id, ORDERS.id, matches)
        }
        "session" => on_positions(Service::Session(workers_asked(matches)?), matches),
        "roll" => {
            let service = Service::Once(requests::Command::Roll(workers_asked(matches)?));
            on_three(service, NEXT.id, POSITIONS.id, matches)
        }
        "faults" => for_faults(matches),
        "check" => on_params(Service::Once(requests::Command::Check), matches),
        "plan" => on_params(Service::Once(requests::Command::Plan), matches),
        _ => None,
    }
}

// The request that the matches make, if they make one.
fn request_of<'a>(matches: &ArgMatches<'a>) -> Option<Request<'a>>
    ensures { option_map asked_by result
        ≡ option_and_then (λ p. asked_among commands p.0 p.1) (subcommand_rows_of matches.now) }
{
    let (name, found) = matches.subcommand()?;
    request_under(name, found)
}

// The usage error for an account that is not a valid name, with the usage of `explain`.
fn misnamed(alloc: Global) -> Result<Error, AllocError>
    ensures { IfOk result (λ e. kind_of e ≡ ErrorKind.ValueValidation) }
{
    let mut command = command(alloc, &EXPLAIN)?.bin_name("span explain")?;
    command.error(ErrorKind::ValueValidation, BAD_ACCOUNT)
}

// The usage error for an account that is not a valid name, or out of memory.
fn refuse_account(alloc: Global) -> Error
    ensures { (kind_of result ≡ ErrorKind.OutOfMemory) ⊎ (kind_of result ≡ ErrorKind.ValueValidation) }
{
    match misnamed(alloc) {
        Ok(error) => error,
        Err(error) => Error::from(error),
    }
}

// The matches of the arguments.
fn parse<'a, S: AsStr>(alloc: Global, words: &'a [S]) -> Result<ArgMatches<'a>, Error>
    ensures ok { IfOk result (λ m. subcommand_rows_of m ≡ subcommand_of span_app (map S.text words.entry.now)) }
    ensures kinds { FailsBy (form_kinds (map S.text words.entry.now)) result }
{
    let command = span(alloc)?;
    command.try_get_matches_from(words)
}

/// Returns the request of these arguments. The first is the program's name. An account and its option are one argument.
pub fn request<'a, S: AsStr>(alloc: Global, words: &'a [S]) -> Result<Request<'a>, Error>
    ensures ok { IfOk result (λ request. asked_in (map S.text words.entry.now) ≡ Some (asked_by request)) }
    ensures err { IfErr result (λ e. is_request (map S.text words.entry.now) ≡ true → kind_of e ≡ ErrorKind.OutOfMemory) }
    ensures kinds { FailsBy (kinds_of (map S.text words.entry.now)) result }
{
    let matches = parse(alloc, words)?;
    match request_of(&matches) {
        Some(request) => Ok(request),
        // `clap` has checked everything else, so the account is not a valid name.
        None => Err(refuse_account(alloc)),
    }
}

// Shows help or the version, and returns the status.
fn show<W: Write, E: Write>(
    error: &Error,
    out: &mut MarkedWriter<W>,
    err: &mut MarkedWriter<E>,
) -> u8
    requires { out.old.failed ≡ false }
    ensures { IsShown result out.new err.old err.new }
{
    match write!(out, "{error}") {
        Ok(()) => DONE,
        Err(_) => {
            let _ = writeln!(err, "file: output");
            FILE_FAILED
        }
    }
}

// Writes a usage error, and returns the status.
fn say_mistake<E: Write>(error: &Error, err: &mut MarkedWriter<E>) -> u8
    ensures { result ≡ USAGE }
{
    let _ = write!(err, "{error}");
    USAGE
}

// Reports that memory ran out while the arguments were parsed, and returns the status.
fn give_up<E: Write>(err: &mut MarkedWriter<E>) -> u8
    ensures status { result ≡ OUT_OF_MEMORY }
    ensures line { Says err.old err.new memory_line }
{
    let _ = writeln!(err, "memory");
    OUT_OF_MEMORY
}

// Answers arguments that make no request.
fn refuse<W: Write, E: Write>(
    error: Error,
    out: &mut MarkedWriter<W>,
    err: &mut MarkedWriter<E>,
) -> u8
    requires { out.old.failed ≡ false }
    ensures { RefusesWords (kind_of error) result out.old out.new err.old err.new }
{
    match error.kind() {
        ErrorKind::OutOfMemory => give_up(err),
        ErrorKind::DisplayHelp | ErrorKind::DisplayVersion => show(&error, out, err),
        _ => say_mistake(&error, err),
    }
}

// Answers a command line in which an account and its option are one argument, and returns the status.
fn answer_words<
    T: AsStr,
    S: Sources,
    I: Input,
    W: Write,
    E: Write,
    R: Threads + Wait + Clock + Sync,
    G: Gate,
>(
    lent: &ServingMeans<'_, R, G>,
    words: &[T],
    sources: &mut S,
    input: &mut I,
    out: &mut MarkedWriter<W>,
    err: &mut MarkedWriter<E>,
) -> u8
    requires { out.old.failed ≡ false }
    ensures answer { (turns : List Turn) × AnswersLine (around (S.file sources.old) (I.remaining input.old) turns out.new.failed) S.reads
        sources.old sources.new (map T.text words.now) result out.old out.new err.old err.new }
    ensures input { (input.new ≡ input.old) ⊎ TakesInputFor (S.file sources.old) (request_in (map T.text words.now)) result }
{
    match request(lent.alloc, words) {
        Ok(request) => serve(lent, request, sources, input, out, err),
        Err(error) => refuse(error, out, err),
    }
}

/// Answers a command line, whose first argument is the program's name, and returns the status. A request is answered as
/// by `serve`. Help and the version are written only to `out`, and usage errors only to `err`. The trait bounds of the
/// two differ, so that the standard streams cannot be exchanged. The argument after `--account` is its value, whatever
/// it begins with.
///
/// Files and the input are read as by `serve`. Nothing is read for a command line that makes no request, or if memory
/// runs out before the request is known. No write to `out` may have failed before.
pub fn run_words<
    T: AsStr,
    S: Sources,
    I: Input,
    W: OutputStream,
    E: ErrorStream,
    R: Threads + Wait + Clock + Sync,
    G: Gate,
>(
    lent: &ServingMeans<'_, R, G>,
    words: &[T],
    sources: &mut S,
    input: &mut I,
    out: &mut MarkedWriter<W>,
    err: &mut MarkedWriter<E>,
) -> u8
    requires { out.old.failed ≡ false }
    ensures answer { (turns : List Turn) × AnswersLine (around (S.file sources.old) (I.remaining input.old) turns out.new.failed) S.reads
        sources.old sources.new (joined_words (map T.text words.now)) result out.old out.new err.old err.new }
    ensures input { (input.new ≡ input.old)
        ⊎ TakesInputFor (S.file sources.old) (request_in (joined_words (map T.text words.now))) result }
{
    match join_words(lent.alloc, words) {
        Ok(joined) => answer_words(lent, &joined, sources, input, out, err),
        Err(error) => refuse(Error::from(error), out, err),
    }
}

/// Answers arguments that cannot be read, and returns the status. An argument that is not UTF-8 is a usage error; any
/// other error is reported as out of memory.
pub fn refuse_words<E: ErrorStream>(error: &io::Error, err: &mut MarkedWriter<E>) -> u8
    ensures no_text { error_kind error.now ≡ kind.InvalidData → result ≡ USAGE }
    ensures memory { error_kind error.now ≢ kind.InvalidData → result ≡ OUT_OF_MEMORY }
    ensures no_text_line { error_kind error.now ≡ kind.InvalidData → Says err.old err.new no_text_line }
    ensures memory_line { error_kind error.now ≢ kind.InvalidData → Says err.old err.new memory_line }
{
    if error.kind() == io::ErrorKind::InvalidData {
        let _ = writeln!(err, "error: a word of the command line is not UTF-8");
        return USAGE;
    }
    give_up(err)
}
