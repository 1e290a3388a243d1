//! Lemmas about the definitions, in the terms of the formats. Each is the contract of a function with an empty body.
#![tactic(auto, unfolding(crate::specs::near::OnLiterals::on_literals))]

ghost use Rattle.binding.specs.Binding.{bindings_of};
ghost use Rattle.param_check.specs.CheckFaults.{checked};
ghost use Rattle.binding.specs.declared.faults.BindFault.{BindFault};
ghost use Rattle.param_check.specs.declared.faults.CheckFault.{CheckFault};
ghost use Rattle.span_csv.specs.ParamFaults.{params_of};
ghost use Rattle.span_csv.specs.PositionFaults.{positions_of};
ghost use Rattle.span_csv.specs.declared.faults.ParamFault.{ParamFault};
ghost use Rattle.span_csv.specs.declared.faults.PositionFault.{PositionFault};
ghost use Rattle.plan_ir.specs.Figures.{option_value_of, value_to};
ghost use Rattle.span_money.specs.LineFields.{line};
ghost use Rattle.span_tables.specs.Net.{AccountHoldings};
ghost use Rattle.span_tables.specs.Rules.{contracts_in};
ghost use Rattle.span_tables.specs.Tables.{AcceptedTables, profile_in};
ghost use Rattle.span_tables.specs.declared.portfolios.Holding.{Holding};
ghost use Rattle.span_tables.specs.declared.records.PositionRecord.{PositionRecord};
ghost use Rattle.span_tables.specs.declared.records.Record.{Record};
ghost use Rattle.statement_text.specs.Gives.{is_memory};
ghost use Rattle.statement_text.specs.FaultLines.{fault_line, fault_status, memory_line};
ghost use Rattle.statement_text.specs.Statement.{accepted_of, commodity_text, row_text, statement_of, statement_text, statement_under};
ghost use Rattle.statement_text.specs.Statement.{total_line, total_numbers, total_of};
ghost use Rattle.statement_text.specs.declared.faults.SpanFault.{SpanFault};
ghost use Rattle.statement_text.specs.declared.faults.SpanFault.TheVariants as fault;
ghost use Rattle.std.specs.Prelude.{◌++◌, ◌≡◌, ◌∷◌, All, Err, List, Ok, [], flat_map};
ghost use Rattle.std.specs.Prelude.{length, nat_eq, pos, true, ℕ, ℤ, ◌+ℤ◌, ◌-ℤ◌};
ghost use Rattle.std.specs.List.{range_with_len};

use inter_credit::laws::due_and_excess_settle_the_value;

/// An account has one line for each commodity in which it holds a contract, and then its T line.
#[tactic(auto, unfolding(crate::specs::Statement::row_text))]
pub fn lines_end_with_the_total()
    ensures { (t : AcceptedTables) (p : AccountHoldings) → row_text t p
        ≡ flat_map (commodity_text t p) (range_with_len 0 (length t.commodities))
        ++ line (total_line p.account t.set_id (total_numbers t (total_of t p) (option_value_of t p.holdings))) }
{}

/// If a T line has an option value, its total is the value plus due minus excess (docs/FORMATS.md, Statement).
#[tactic(auto, unfolding(crate::specs::Statement::total_numbers))]
pub fn a_total_line_settles_the_value()
    ensures { (t : AcceptedTables) (total value due excess : ℤ)
        → total_numbers t total value ≡ total ∷ value ∷ due ∷ excess ∷ [] → total ≡ (value +ℤ due) -ℤ excess }
{
    due_and_excess_settle_the_value();
}

/// A statement of no accounts is empty, and so is the statement of an empty position file. The lines of an account do
/// not depend on other accounts, and come in the order of the accounts.
pub fn accounts_stand_by_themselves()
    ensures none { (tables : AcceptedTables) → statement_text tables [] ≡ [] }
    ensures no_positions { (tables : AcceptedTables) → statement_under tables [] ≡ Ok [] }
    ensures one { (tables : AcceptedTables) (p : AccountHoldings) → statement_text tables (p ∷ []) ≡ row_text tables p }
    ensures in_order { (tables : AcceptedTables) (ps qs : List AccountHoldings)
        → statement_text tables (ps ++ qs) ≡ statement_text tables ps ++ statement_text tables qs }
{}

/// The fault is the first of reading the parameters, or else of checking them, or else of reading the positions, or
/// else of binding them. If there is none, the answer is the statement.
pub fn faults_come_in_order()
    ensures params { (params positions : List ℕ) (e : ParamFault) → params_of params ≡ Err e
        → statement_of params positions ≡ Err (fault.Params e) }
    ensures check { (params positions : List ℕ) (records : List Record) (e : CheckFault)
        → params_of params ≡ Ok records → checked records ≡ Err e
        → statement_of params positions ≡ Err (fault.Check e) }
    ensures positions { (params positions : List ℕ) (records : List Record) (tables : AcceptedTables) (e : PositionFault)
        → params_of params ≡ Ok records → checked records ≡ Ok tables → positions_of positions ≡ Err e
        → statement_of params positions ≡ Err (fault.Positions e) }
    ensures bind { (params positions : List ℕ) (records : List Record) (tables : AcceptedTables)
        (held : List PositionRecord) (e : BindFault)
        → params_of params ≡ Ok records → checked records ≡ Ok tables → positions_of positions ≡ Ok held
        → bindings_of tables.contracts held ≡ Err e → statement_of params positions ≡ Err (fault.Bind e) }
    ensures statement { (params positions : List ℕ) (records : List Record) (tables : AcceptedTables)
        (held : List PositionRecord) (accounts : List AccountHoldings)
        → params_of params ≡ Ok records → checked records ≡ Ok tables → positions_of positions ≡ Ok held
        → bindings_of tables.contracts held ≡ Ok accounts
        → statement_of params positions ≡ Ok (statement_text tables accounts) }
{}

/// Out of memory has one line and one status, in whatever stage it occurs, and no other fault has that status.
pub fn want_of_memory_is_told_apart()
    ensures line { (e : SpanFault) → is_memory e ≡ true → fault_line e ≡ memory_line }
    ensures status { (e : SpanFault) → nat_eq (fault_status e) 5 ≡ is_memory e }
{}

/// Under profile 1 the option value of each contract is 0, in the records of a file that is read and in the tables of
/// an accepted one. The sum of the values of any holdings is therefore 0.
pub fn profile_1_has_no_option_values()
    ensures read { (params : List ℕ) (records : List Record) → params_of params ≡ Ok records → profile_in records ≡ 1
        → All (λ x. x.extras.option_value ≡ 0) (contracts_in records) }
    ensures accepted { (params : List ℕ) (tables : AcceptedTables) → accepted_of params ≡ Ok tables → tables.profile ≡ 1
        → All (λ x. x.extras.option_value ≡ 0) tables.contracts }
    ensures sum { (params : List ℕ) (tables : AcceptedTables) (holdings : List Holding)
        → accepted_of params ≡ Ok tables → tables.profile ≡ 1 → value_to tables holdings (length tables.commodities) ≡ pos 0 }
{}
