//! Test vectors: command lines and files with their results, each computed by the definitions alone.
#![tactic(auto, unfolding(crate::specs::near::OnLiterals::on_literals))]

ghost use Rattle.clap.specs.declared.error.kind.ErrorKind.TheVariants as kind;
ghost use Rattle.span_cli.specs.Serving.{IsAnswer, done, refused};
ghost use Rattle.span_cli.specs.declared.requests.Command.TheVariants.{Explain, Faults, Margin, Plan};
ghost use Rattle.span_cli.specs.declared.requests.Service.TheVariants.{Once, Session};
ghost use Rattle.span_cli.specs.Sessions.{files_alone};
ghost use Rattle.span_cli.specs.Words.{asked_in, is_request, joined_words, kinds_of};
ghost use Rattle.sources.specs.declared.ReadFault.TheVariants as read;
ghost use Rattle.sources.specs.declared.TheConstants.{FILE_CAP};
ghost use Rattle.std.specs.Prelude.{◌≡◌, ◌∷◌, Err, None, Ok, Some, [], bytes_eq, codes, if◌then◌else◌, true};

// `span margin p q` is valid. Its request has the files in their order and one worker.
fn margin_of_two_files()
    ensures taken { is_request (codes "span" ∷ codes "margin" ∷ codes "p" ∷ codes "q" ∷ []) ≡ true }
    ensures asked { asked_in (codes "span" ∷ codes "margin" ∷ codes "p" ∷ codes "q" ∷ [])
        ≡ Some (Once (Margin 1), codes "p" ∷ codes "q" ∷ []) }
{}

// An account in one argument with its option, before the files and after them.
fn explain_of_an_account()
    ensures taken { is_request (codes "span" ∷ codes "explain" ∷ codes "--account=X-1" ∷ codes "p" ∷ codes "q" ∷ []) ≡ true }
    ensures before { asked_in (codes "span" ∷ codes "explain" ∷ codes "--account=X-1" ∷ codes "p" ∷ codes "q" ∷ [])
        ≡ Some (Once (Explain (Some (codes "X-1"))), codes "p" ∷ codes "q" ∷ []) }
    ensures minus { asked_in (codes "span" ∷ codes "explain" ∷ codes "p" ∷ codes "q" ∷ codes "--account=-X" ∷ [])
        ≡ Some (Once (Explain (Some (codes "-X"))), codes "p" ∷ codes "q" ∷ []) }
{}

// The argument after `--account` is its value, whatever it is. After a `--` no argument is an option.
fn joined_accounts()
    ensures dashes { joined_words (codes "span" ∷ codes "explain" ∷ codes "--account" ∷ codes "--" ∷ codes "p" ∷ codes "q" ∷ [])
        ≡ codes "span" ∷ codes "explain" ∷ codes "--account=--" ∷ codes "p" ∷ codes "q" ∷ [] }
    ensures twice { joined_words (codes "span" ∷ codes "--account" ∷ codes "--account" ∷ codes "--account" ∷ codes "X" ∷ [])
        ≡ codes "span" ∷ codes "--account=--account" ∷ codes "--account=X" ∷ [] }
    ensures behind_dashes { joined_words (codes "span" ∷ codes "explain" ∷ codes "--" ∷ codes "--account" ∷ codes "X" ∷ [])
        ≡ codes "span" ∷ codes "explain" ∷ codes "--" ∷ codes "--account" ∷ codes "X" ∷ [] }
{}

// `span session p q` has one worker, and `span faults p q` has none.
fn other_commands()
    ensures session { asked_in (codes "span" ∷ codes "session" ∷ codes "p" ∷ codes "q" ∷ [])
        ≡ Some (Session 1, codes "p" ∷ codes "q" ∷ []) }
    ensures faults { asked_in (codes "span" ∷ codes "faults" ∷ codes "p" ∷ codes "q" ∷ [])
        ≡ Some (Once Faults, codes "p" ∷ codes "q" ∷ []) }
{}

// A number of workers with a plus and zeros.
fn workers_with_a_plus()
    ensures taken { is_request (codes "span" ∷ codes "margin" ∷ codes "p" ∷ codes "q" ∷ codes "--workers=+003" ∷ []) ≡ true }
    ensures asked { asked_in (codes "span" ∷ codes "margin" ∷ codes "p" ∷ codes "q" ∷ codes "--workers=+003" ∷ [])
        ≡ Some (Once (Margin 3), codes "p" ∷ codes "q" ∷ []) }
{}

// Arguments that make no request: a malformed account, an option of another command, an option twice, and a missing file.
fn mistakes()
    ensures small { kinds_of (codes "span" ∷ codes "explain" ∷ codes "p" ∷ codes "q" ∷ codes "--account=x" ∷ [])
        ≡ kind.ValueValidation ∷ [] }
    ensures of_margin { kinds_of (codes "span" ∷ codes "margin" ∷ codes "p" ∷ codes "q" ∷ codes "--account=X" ∷ [])
        ≡ kind.UnknownArgument ∷ [] }
    ensures twice { kinds_of (codes "span" ∷ codes "margin" ∷ codes "p" ∷ codes "q" ∷ codes "--workers=2"
        ∷ codes "--workers=2" ∷ []) ≡ kind.ArgumentConflict ∷ [] }
    ensures no_file { kinds_of (codes "span" ∷ codes "check" ∷ []) ≡ kind.MissingRequiredArgument ∷ [] }
{}

// The first file that cannot be read is named, even if the files after it are unknown.
fn first_that_is_not_read()
    ensures first { IsAnswer (files_alone (λ name. if bytes_eq name (codes "p") then Some (Err read.TooLong) else None))
        (Once (Margin 1), codes "p" ∷ codes "q" ∷ []) (refused 6 (codes "file: p\n")) }
    ensures second { IsAnswer (files_alone (λ name. if bytes_eq name (codes "p") then Some (Ok []) else Some (Err read.Failed)))
        (Once (Margin 1), codes "p" ∷ codes "q" ∷ []) (refused 6 (codes "file: q\n")) }
{}

// Faults of both files, with the status of the first fault.
fn files_whose_faults_are_told()
    ensures { IsAnswer (files_alone (λ name. if bytes_eq name (codes "p") then Some (Ok []) else Some (Ok (codes "X,FA\n"))))
        (Once Faults, codes "p" ∷ codes "q" ∷ []) (record {
          status = 3;
          out = codes "parameters: P1 NoSet at record 0\npositions: Q1 FieldCount at record 1\n";
          err = [];
        }) }
{}

// Sessions that are rejected before their first request: for their parameters, and for the stream of requests given as a
// file.
fn refused_sessions()
    ensures no_set { IsAnswer (files_alone (λ _. Some (Ok []))) (Session 1, codes "p" ∷ codes "q" ∷ [])
        (refused 3 (codes "parameters: P1 NoSet at record 0\n")) }
    ensures positions_of_requests { IsAnswer (files_alone (λ _. Some (Ok []))) (Session 1, codes "p" ∷ codes "/dev/stdin" ∷ [])
        (refused 6 (codes "file: /dev/stdin\n")) }
{}

// The plan of a parameter set without commodities.
fn plans()
    ensures alone { IsAnswer (files_alone (λ _. Some (Ok (codes "SET,D1,1,USD\n")))) (Once Plan, codes "p" ∷ [])
        (done (codes "0 InterStart()\n1 TotalStart()\n")) }
{}

// The limit of a file in bytes.
fn limits()
    ensures { FILE_CAP ≡ 67108864 }
{}
