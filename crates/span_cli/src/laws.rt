//! Lemmas about arguments and about what is printed. Each is the contract of a function that does nothing.
ghost use Rattle.clap.specs.Words.{subcommand_of};
ghost use Rattle.session.specs.Conversations.{Turn, session_of};
ghost use Rattle.span_cli.specs.Serving.{Answer, answer_of, answer_of_faults, done, file_line, refused};
ghost use Rattle.span_cli.specs.Telling.{Tells};
ghost use Rattle.span_cli.specs.Words.{is_request, kinds_of, span_app};
ghost use Rattle.span_tables.specs.Names.{is_among};
ghost use Rattle.statement.specs.AllFaults.{faults_status, faults_text};
ghost use Rattle.statement.specs.Margin.{margin_of};
ghost use Rattle.worker_pool.specs.declared.batch.TheConstants.{MAX_WORKERS};
ghost use Rattle.writers.specs.Streams.{Stream};
ghost use Rattle.statement_text.specs.FaultLines.{fault_line, fault_status};
ghost use Rattle.statement_text.specs.declared.faults.SpanFault.{SpanFault};
ghost use Rattle.std.specs.Io.KnownBytes.{Appends};
ghost use Rattle.std.specs.Prelude.{◌≡◌, ◌≢◌, ◌<◌, ◌≤◌, ◌∷◌, ◌++◌, Err, List, [], codes, false, is_some, true, ℕ};

/// If a successful answer was reported and no write failed, the status is 0, exactly its bytes were written to the
/// output, and nothing to the error stream.
pub fn done_is_on_the_output()
    ensures { (text : List ℕ) (given : ℕ) (old_out new_out old_err new_err : Stream)
        → Tells (done text) given old_out new_out old_err new_err → new_out.failed ≡ false → new_err.failed ≡ false
        → (given ≡ 0) × (Appends old_out.held new_out.held text × Appends old_err.held new_err.held []) }
{}

/// If a fault was reported and no write failed, the status and the line are the fault's, and nothing was written to the
/// output.
pub fn refused_is_on_the_error_stream()
    ensures { (fault : SpanFault) (given : ℕ) (old_out new_out old_err new_err : Stream)
        → Tells (answer_of (Err fault)) given old_out new_out old_err new_err
        → new_out.failed ≡ false → new_err.failed ≡ false
        → (given ≡ fault_status fault)
        × (Appends old_out.held new_out.held [] × Appends old_err.held new_err.held (fault_line fault)) }
{}

/// If the output failed, the status is 6, and exactly `file: output` was written to the error stream, unless that
/// failed too.
pub fn unwritten_is_said()
    ensures status { (answer : Answer) (given : ℕ) (old_out new_out old_err new_err : Stream)
        → Tells answer given old_out new_out old_err new_err → new_out.failed ≡ true → given ≡ 6 }
    ensures line { (answer : Answer) (given : ℕ) (old_out new_out old_err new_err : Stream)
        → Tells answer given old_out new_out old_err new_err → new_out.failed ≡ true → new_err.failed ≡ false
        → Appends old_err.held new_err.held (codes "file: output\n") }
{}

/// If the answer is a list of faults and no write failed, the status is the first fault's, or 0 if there is none.
/// Exactly the lines of the faults were written to the output, and nothing to the error stream.
pub fn faults_are_on_the_output()
    ensures { (faults : List SpanFault) (given : ℕ) (old_out new_out old_err new_err : Stream)
        → Tells (answer_of_faults faults) given old_out new_out old_err new_err
        → new_out.failed ≡ false → new_err.failed ≡ false
        → (given ≡ faults_status faults)
        × (Appends old_out.held new_out.held (faults_text faults) × Appends old_err.held new_err.held []) }
{}

/// If the output did not fail, the status is the answer's, even if its line could not be written. An answer with a
/// line, such as the rejection for a fault, never makes the output fail.
pub fn status_stands()
    ensures status { (answer : Answer) (given : ℕ) (old_out new_out old_err new_err : Stream)
        → Tells answer given old_out new_out old_err new_err → new_out.failed ≡ false → given ≡ answer.status }
    ensures refused { (answer : Answer) (given : ℕ) (old_out new_out old_err new_err : Stream)
        → Tells answer given old_out new_out old_err new_err → answer.err ≢ [] → new_out.failed ≡ false }
    ensures fault { (fault : SpanFault) (given : ℕ) (old_out new_out old_err new_err : Stream)
        → Tells (answer_of (Err fault)) given old_out new_out old_err new_err → new_out.failed ≡ false }
{}

/// If the two files of a session are rejected, the fault is the one of their statement, on any valid number of workers.
pub fn a_session_is_refused_as_the_statement()
    ensures { (params positions : List ℕ) (turns : List Turn) (workers : ℕ) (e : SpanFault) → 0 < workers → workers ≤ MAX_WORKERS
        → session_of params positions turns ≡ Err e → margin_of workers params positions ≡ Err e }
{}

/// Valid arguments name a command.
pub fn taken_words_name_a_command()
    ensures { (words : List (List ℕ)) → is_request words ≡ true → is_some (subcommand_of span_app words) ≡ true }
{}

/// Arguments that have no kind of error are valid.
pub fn words_that_nothing_refuses_are_taken()
    ensures { (words : List (List ℕ)) → kinds_of words ≡ [] → is_request words ≡ true }
{}

/// A stream whose name was kept is not read again, whatever else is kept.
pub fn kept_streams_are_not_read_again()
    ensures kept { (names : List (List ℕ)) (name : List ℕ) → is_among (names ++ name ∷ []) name ≡ true }
    ensures stays { (names : List (List ℕ)) (name other : List ℕ) → is_among names name ≡ true
        → is_among (names ++ other ∷ []) name ≡ true }
    ensures others { (names : List (List ℕ)) (name other : List ℕ) → is_among (names ++ other ∷ []) name ≡ true
        → other ≢ name → is_among names name ≡ true }
{}
