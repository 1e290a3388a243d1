//! Lemmas about the definition of a session's answers. Each is the contract of a function with an empty body.
ghost use Rattle.binding.specs.declared.faults.BindFault.{BindFault};
ghost use Rattle.binding.specs.declared.trades.Trade.{Trade};
ghost use Rattle.session.specs.Accounts.{position_records};
ghost use Rattle.session.specs.Answers.{Answered, State, answer_to, has_no_place, opened, tried, unchanged, unfit, with_portfolio};
ghost use Rattle.session.specs.Conversations.{Turn, answer_of, answers_from, booked_in, done_line, has_new_set, may_change};
ghost use Rattle.session.specs.Conversations.{numbered_from, opening_text, outcomes, request_on};
ghost use Rattle.session.specs.Conversations.{state_after, state_behind};
ghost use Rattle.session.specs.Refusals.{Refused};
ghost use Rattle.session.specs.Requests.{Fill, Margin, Positions, Try};
ghost use Rattle.span_csv.specs.PositionFaults.{positions_of};
ghost use Rattle.span_tables.specs.Net.{AccountHoldings};
ghost use Rattle.span_money.specs.LineFields.{line};
ghost use Rattle.span_tables.specs.Tables.{AcceptedTables, facts_in};
ghost use Rattle.span_tables.specs.declared.records.PositionRecord.{PositionRecord};
ghost use Rattle.statement_text.specs.Statement.{accepted_of, portfolios_under, statement_of};
ghost use Rattle.std.specs.Char.{is_ascii_lowercase};
ghost use Rattle.std.specs.Fmt.{signed_decimal};
ghost use Rattle.whatif.specs.Whatif.{change_of};
ghost use Rattle.std.specs.Prelude.{◌≡◌, ◌⊎◌, ◌+◌, ◌<◌, ◌++◌, [], ◌∷◌, All, Err, List, None, Ok, codes, false, if◌then◌else◌};
ghost use Rattle.std.specs.Prelude.{length, map, ℕ, ℤ};

/// If more requests follow, the answers to the first ones are the same.
pub fn answers_are_the_first_of_more()
    ensures answers { (n : ℕ) (s : State) (turns more : List Turn) → answers_from n s (turns ++ more)
        ≡ answers_from n s turns ++ answers_from (n + length turns) (state_behind s turns) more }
    ensures state { (s : State) (turns more : List Turn) → state_behind s (turns ++ more) ≡ state_behind (state_behind s turns) more }
{}

/// A rejected request changes nothing.
pub fn a_refused_request_changes_nothing()
    ensures { (s : State) (turn : Turn) (what : Refused) → answer_of s turn ≡ Err what → state_after s (answer_of s turn) ≡ s }
{}

/// MARGIN, EXPLAIN, TRY and POSITIONS leave the state as it is.
pub fn only_a_fill_or_a_set_changes_the_state()
    ensures { (s : State) (turn : Turn) → may_change (request_on turn.request) ≡ false → state_after s (answer_of s turn) ≡ s }
{}

/// No line of an answer but the last begins with a lower-case letter: the lines before the last have no such letter.
pub fn only_the_last_line_begins_in_lower_case()
    ensures opening { (params positions : List ℕ) (s : State) → opened params positions ≡ Ok s
        → (lines : List ℕ) × (opening_text s ≡ lines ++ line (done_line 0)) × All (λ b. is_ascii_lowercase b ≡ false) lines }
    ensures answers { (params positions : List ℕ) (s : State) (turns : List Turn) (turn : Turn) (a : Answered)
        → opened params positions ≡ Ok s → answer_of (state_behind s turns) turn ≡ Ok a
        → All (λ b. is_ascii_lowercase b ≡ false) a.lines }
{}

/// A request that changes nothing may be left out: the other answers are the same, except for their numbers.
pub fn a_request_that_changes_nothing_may_be_left_out()
    ensures with { (s : State) (turns : List Turn) (turn : Turn) (more : List Turn)
        → state_after (state_behind s turns) (answer_of (state_behind s turns) turn) ≡ state_behind s turns
        → outcomes s (turns ++ turn ∷ more)
        ≡ outcomes s turns ++ answer_of (state_behind s turns) turn ∷ outcomes (state_behind s turns) more }
    ensures without { (s : State) (turns more : List Turn)
        → outcomes s (turns ++ more) ≡ outcomes s turns ++ outcomes (state_behind s turns) more }
    ensures numbers { (n : ℕ) (s : State) (turns : List Turn) → answers_from n s turns ≡ numbered_from n (outcomes s turns) }
{}

/// A FILL has the total that a TRY of the same account and trades shows after the order, unless there is no room for the
/// account. If options have a value, it has the same amount due, too. Both are rejected for the same fault, one field
/// apart.
pub fn a_fill_behind_a_try_has_its_total()
    ensures total { (s : State) (account : List ℕ) (trades : List Trade) (order : List ℕ) (after : AccountHoldings)
        → has_no_place s account ≡ false → tried s account trades ≡ Ok after
        → (changes : List ℕ) × (before : ℤ) × (total : ℤ) × (due_before : ℤ) × (due : ℤ) × (value : ℤ) × (excess : ℤ)
        × (answer_to s None (Try order account trades) ≡ unchanged s (changes ++ line (record {
          word = codes "ORDER";
          fields = order ∷ account ∷ s.tables.set_id ∷ map signed_decimal (change_of before total
              ++ (if (facts_in s.tables).options_have_value then change_of due_before due else []));
        })))
        × (answer_to s None (Fill account trades) ≡ Ok (record {
          state = with_portfolio s after;
          lines = line (record {
            word = codes "T";
            fields = account ∷ s.tables.set_id ∷ map signed_decimal
                (if (facts_in s.tables).options_have_value then total ∷ value ∷ due ∷ excess ∷ [] else total ∷ []);
          });
        })) }
    ensures refused { (s : State) (account : List ℕ) (trades : List Trade) (order : List ℕ) (e : BindFault)
        → has_no_place s account ≡ false → tried s account trades ≡ Err e
        → (answer_to s None (Try order account trades) ≡ Err (unfit 2 e))
        × (answer_to s None (Fill account trades) ≡ Err (unfit 1 e)) }
{}

/// As long as no SET is accepted, a session has the accounts of the records that it was opened with, followed by the
/// records of all accepted fills. Therefore its answer to MARGIN is what `margin` prints for the parameter file and a
/// position file that has these records.
pub fn fills_are_records_behind_the_positions()
    ensures accounts { (params : List ℕ) (t : AcceptedTables) (records : List PositionRecord) (accounts : List AccountHoldings)
        (turns : List Turn) → accepted_of params ≡ Ok t → portfolios_under t records ≡ Ok accounts
        → has_new_set (record { tables = t; accounts = accounts }) turns ≡ false
        → portfolios_under t (records ++ booked_in (record { tables = t; accounts = accounts }) turns)
        ≡ Ok (state_behind (record { tables = t; accounts = accounts }) turns).accounts }
    ensures margin { (params positions more : List ℕ) (s : State) (turns : List Turn) (records : List PositionRecord)
        → opened params positions ≡ Ok s → positions_of positions ≡ Ok records
        → has_new_set s turns ≡ false → positions_of more ≡ Ok (records ++ booked_in s turns)
        → (text : List ℕ) × (statement_of params more ≡ Ok text)
        × (answer_to (state_behind s turns) None Margin ≡ unchanged (state_behind s turns) text) }
{}

/// A session can be closed and opened again from the parameter file of its set and the answer to POSITIONS, if the set
/// has a contract or there is no account. Over these two files it has the same state. Its answer to MARGIN is what
/// `margin` prints for them, and for any position file that has the same records.
pub fn a_session_can_be_opened_again()
    ensures state { (params positions current : List ℕ) (s : State) (turns : List Turn) → opened params positions ≡ Ok s
        → accepted_of current ≡ Ok (state_behind s turns).tables
        → (0 < length (state_behind s turns).tables.contracts) ⊎ ((state_behind s turns).accounts ≡ [])
        → (records : List ℕ) × (answer_to (state_behind s turns) None Positions ≡ unchanged (state_behind s turns) records)
        × (opened current records ≡ Ok (state_behind s turns)) }
    ensures records { (params positions current file : List ℕ) (s : State) (turns : List Turn) → opened params positions ≡ Ok s
        → accepted_of current ≡ Ok (state_behind s turns).tables
        → (0 < length (state_behind s turns).tables.contracts) ⊎ ((state_behind s turns).accounts ≡ [])
        → positions_of file ≡ Ok (position_records (state_behind s turns).tables.contracts (state_behind s turns).accounts)
        → (text : List ℕ) × (statement_of current file ≡ Ok text)
        × (answer_to (state_behind s turns) None Margin ≡ unchanged (state_behind s turns) text) }
    ensures answers { (params positions current : List ℕ) (s : State) (turns : List Turn) → opened params positions ≡ Ok s
        → accepted_of current ≡ Ok (state_behind s turns).tables
        → (0 < length (state_behind s turns).tables.contracts) ⊎ ((state_behind s turns).accounts ≡ [])
        → (records : List ℕ) × (text : List ℕ)
        × (answer_to (state_behind s turns) None Positions ≡ unchanged (state_behind s turns) records)
        × (answer_to (state_behind s turns) None Margin ≡ unchanged (state_behind s turns) text)
        × (statement_of current records ≡ Ok text) }
{}
