//! Lemmas: an explanation contains the lines of the statement, and the sums of an account follow from its lines. Each
//! is the contract of a function that does nothing.
ghost use Rattle.explanation.specs.Explanation.{account_lines, commodity_lines, explanation_of};
ghost use Rattle.explanation.specs.Laws.{behind_ids, is_of_statement, lines_read};
ghost use Rattle.inter_credit.specs.OptionValue.{due_of, excess_of};
ghost use Rattle.plan_ir.specs.Figures.{figures_of, is_commodity_held, option_value_of};
ghost use Rattle.reasons.specs.Laws.{AreAccepted, numbers_shown, values_shown_at};
ghost use Rattle.reasons.specs.Lines.{figures_by_lines, lines_of, number_at};
ghost use Rattle.span_money.specs.ExactDecimals.{exact_value};
ghost use Rattle.span_money.specs.LineFields.{Line, line};
ghost use Rattle.span_money.specs.Numbers.{int_sum_by};
ghost use Rattle.span_csv.specs.PositionFaults.{positions_of};
ghost use Rattle.span_tables.specs.Net.{AccountHoldings};
ghost use Rattle.span_tables.specs.Tables.{AcceptedTables, facts_in};
ghost use Rattle.span_tables.specs.declared.records.PositionRecord.{PositionRecord};
ghost use Rattle.statement_text.specs.Statement.{accepted_of, portfolios_under, row_text, statement_of, total_of};
ghost use Rattle.statement_text.specs.declared.faults.SpanFault.{SpanFault};
ghost use Rattle.statement_text.specs.declared.faults.SpanFault.TheVariants as fault;
ghost use Rattle.std.specs.Prelude.{[], ◌++◌, ◌<◌, ◌≡◌, ◌∷◌, All, Err, List, None, Ok, Option, Some, bytes_eq, codes, filter, find};
ghost use Rattle.std.specs.Prelude.{flat_map, length, map, pos, true, ℕ};

use reasons::line_laws::{figures_follow_from_the_lines, held_lines_have_each_held_contract};

/// The lines of an account with the word R or T are exactly its lines of the statement. Two files that have a statement
/// have an explanation of all accounts. The explanation is the text of the lines that are read from it, cut at line
/// feeds and commas. Its lines with the word R or T are the statement.
pub fn explanations_contain_the_statement()
    ensures account { (t : AcceptedTables) (p : AccountHoldings)
        → flat_map line (filter is_of_statement (account_lines t p)) ≡ row_text t p }
    ensures files { (params positions text : List ℕ) → statement_of params positions ≡ Ok text
        → (told : List ℕ) × (explanation_of params positions None ≡ Ok told) × (flat_map line (lines_read told) ≡ told)
        × (flat_map line (filter is_of_statement (lines_read told)) ≡ text) }
{}

/// The explanation of one account is that account's lines, which are also the lines read from its text. Its lines with
/// the word R or T are its lines of the statement, by [`explanations_contain_the_statement`]. If the positions do not
/// have the account, this is the fault.
pub fn an_account_is_explained_by_its_lines()
    ensures one { (params positions name : List ℕ) (t : AcceptedTables) (records : List PositionRecord)
        (portfolios : List AccountHoldings) (p : AccountHoldings) → accepted_of params ≡ Ok t
        → positions_of positions ≡ Ok records → portfolios_under t records ≡ Ok portfolios
        → find (λ q. bytes_eq q.account name) portfolios ≡ Some p
        → explanation_of params positions (Some name) ≡ Ok (flat_map line (account_lines t p)) }
    ensures read { (params positions name : List ℕ) (t : AcceptedTables) (records : List PositionRecord)
        (portfolios : List AccountHoldings) (p : AccountHoldings) → accepted_of params ≡ Ok t
        → positions_of positions ≡ Ok records → portfolios_under t records ≡ Ok portfolios
        → find (λ q. bytes_eq q.account name) portfolios ≡ Some p
        → lines_read (flat_map line (account_lines t p)) ≡ account_lines t p }
    ensures none { (params positions name : List ℕ) (t : AcceptedTables) (records : List PositionRecord)
        (portfolios : List AccountHoldings) → accepted_of params ≡ Ok t
        → positions_of positions ≡ Ok records → portfolios_under t records ≡ Ok portfolios
        → find (λ q. bytes_eq q.account name) portfolios ≡ None
        → explanation_of params positions (Some name) ≡ Err (fault.UnknownAccount name) }
{}

/// The explanation of all accounts is the lines of each account, one account after another. These are also the lines
/// read from its text, cut at line feeds and commas.
pub fn all_accounts_are_explained_by_their_lines()
    ensures all { (params positions : List ℕ) (t : AcceptedTables) (records : List PositionRecord) (portfolios : List AccountHoldings)
        → accepted_of params ≡ Ok t → positions_of positions ≡ Ok records → portfolios_under t records ≡ Ok portfolios
        → explanation_of params positions None ≡ Ok (flat_map line (flat_map (account_lines t) portfolios)) }
    ensures read { (params positions : List ℕ) (t : AcceptedTables) (records : List PositionRecord) (portfolios : List AccountHoldings)
        → accepted_of params ≡ Ok t → positions_of positions ≡ Ok records → portfolios_under t records ≡ Ok portfolios
        → lines_read (flat_map line (flat_map (account_lines t) portfolios)) ≡ flat_map (account_lines t) portfolios }
{}

/// For accepted files, the tables are within their limits and the holdings of each account fit them, as the lemmas
/// about lines assume.
pub fn accounts_of_accepted_files_are_accepted()
    ensures { (params : List ℕ) (t : AcceptedTables) (records : List PositionRecord) (portfolios : List AccountHoldings)
        → accepted_of params ≡ Ok t → portfolios_under t records ≡ Ok portfolios → All (λ p. AreAccepted t p.holdings) portfolios }
{}

/// The lines of a commodity that an account holds end with its R line, whose numbers follow from the lines before it.
pub fn an_r_line_follows_from_the_lines_in_front()
    ensures { (t : AcceptedTables) (p : AccountHoldings) (c : ℕ) → AreAccepted t p.holdings → c < length t.commodities
        → is_commodity_held t p.holdings c ≡ true
        → (front : List Line) × ((last : Line) × (commodity_lines t p c ≡ front ++ last ∷ []) × (last.word ≡ codes "R")
        × (map (exact_value 0) (behind_ids last).fields ≡ figures_by_lines (map behind_ids front))) }
{
    figures_follow_from_the_lines();
}

/// The lines of an account end with its T line, whose total is the sum of the requirements of the R lines before it. If
/// options have a value, its value is the sum of the values of the HELD lines. Its due is the total minus the value,
/// and its excess is the value minus the total, each 0 if that is negative.
pub fn a_t_line_follows_from_the_lines_in_front()
    ensures total { (t : AcceptedTables) (p : AccountHoldings) → AreAccepted t p.holdings
        → (front : List Line) × ((last : Line) × (account_lines t p ≡ front ++ last ∷ []) × (last.word ≡ codes "T")
        × (number_at 0 last 2 ≡ int_sum_by (λ l. number_at 0 l 9) (lines_of (codes "R") front))) }
    ensures value { (t : AcceptedTables) (p : AccountHoldings) → AreAccepted t p.holdings → (facts_in t).options_have_value ≡ true
        → (front : List Line) × ((last : Line) × (account_lines t p ≡ front ++ last ∷ []) × (last.word ≡ codes "T")
        × (number_at 0 last 3 ≡ int_sum_by (λ l. number_at 0 l 7) (lines_of (codes "HELD") front))) }
    ensures due { (t : AcceptedTables) (p : AccountHoldings) → AreAccepted t p.holdings → (facts_in t).options_have_value ≡ true
        → (front : List Line) × ((last : Line) × (account_lines t p ≡ front ++ last ∷ []) × (last.word ≡ codes "T")
        × (number_at 0 last 4 ≡ pos (due_of (number_at 0 last 2) (number_at 0 last 3)))) }
    ensures excess { (t : AcceptedTables) (p : AccountHoldings) → AreAccepted t p.holdings → (facts_in t).options_have_value ≡ true
        → (front : List Line) × ((last : Line) × (account_lines t p ≡ front ++ last ∷ []) × (last.word ≡ codes "T")
        × (number_at 0 last 5 ≡ pos (excess_of (number_at 0 last 2) (number_at 0 last 3)))) }
{
    held_lines_have_each_held_contract();
}

/// Files that have no statement have no explanation, for any account, and are rejected with the same fault.
pub fn faults_of_the_statement_come_first()
    ensures { (params positions : List ℕ) (account : Option (List ℕ)) (e : SpanFault)
        → statement_of params positions ≡ Err e → explanation_of params positions account ≡ Err e }
{}

/// The total of an account is the sum of the requirements of the commodities that have lines. A commodity without held
/// contracts adds nothing.
pub fn total_is_the_sum_of_the_requirements_shown()
    ensures { (t : AcceptedTables) (p : AccountHoldings) → total_of t p
        ≡ int_sum_by (λ c. (figures_of t p.holdings c).requirement) (numbers_shown t p.holdings) }
{}

/// If options have a value, the option value of an account is the sum of the values of the positions shown.
pub fn value_is_the_sum_of_the_values_shown()
    ensures { (t : AcceptedTables) (p : AccountHoldings) → (facts_in t).options_have_value ≡ true → option_value_of t p.holdings
        ≡ int_sum_by (values_shown_at t p.holdings) (numbers_shown t p.holdings) }
{}
