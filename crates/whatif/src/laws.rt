//! Lemmas: how the lines of an order agree with the statements without it and with it. Each is the contract of a
//! function that does nothing.
ghost use Rattle.binding.specs.OrderBinding.{TriedOrder, holdings_after, holdings_before, orders_bound, tried_order};
ghost use Rattle.binding.specs.OrderBinding.{TriedOrders};
ghost use Rattle.binding.specs.declared.faults.OrderBindFault.{OrderBindFault};
ghost use Rattle.plan_ir.specs.Figures.{is_commodity_held};
ghost use Rattle.span_csv.specs.OrderFaults.{orders_of};
ghost use Rattle.span_csv.specs.PositionFaults.{positions_of};
ghost use Rattle.span_csv.specs.declared.faults.OrderFault.{OrderFault};
ghost use Rattle.span_money.specs.LineFields.{line};
ghost use Rattle.span_money.specs.Numbers.{int_sum_by};
ghost use Rattle.span_tables.specs.Names.{is_among};
ghost use Rattle.span_tables.specs.Net.{AccountHoldings, net_of, portfolios_of};
ghost use Rattle.span_tables.specs.Orders.{account_of_order, orders_in, positions_of_order};
ghost use Rattle.span_tables.specs.Tables.{AcceptedTables};
ghost use Rattle.span_tables.specs.declared.records.Contract.{Contract};
ghost use Rattle.span_tables.specs.declared.records.OrderRecord.{OrderRecord};
ghost use Rattle.span_tables.specs.declared.records.PositionRecord.{PositionRecord};
ghost use Rattle.statement_text.specs.Statement.{accepted_of, portfolios_under, statement_of, total_of};
ghost use Rattle.statement_text.specs.declared.faults.SpanFault.{SpanFault};
ghost use Rattle.statement_text.specs.declared.faults.SpanFault.TheVariants as fault;
ghost use Rattle.std.specs.Prelude.{◌≡◌, ◌-ℤ◌, ◌++◌, ◌<◌, Err, List, None, Ok, Some, [], bytes_eq, false, filter, find, length, true};
ghost use Rattle.std.specs.Prelude.{pos, ℕ};
ghost use Rattle.whatif.specs.Whatif.{changed_by, due_at, order_line, order_text, requirement_at, tried_of, whatif_text};

/// The changes of the commodities that have a line add up to the change of the account's total.
pub fn changes_add_up()
    ensures { (t : AcceptedTables) (o : TriedOrder)
        → int_sum_by (λ c. requirement_at t o.after c -ℤ requirement_at t o.before c) (changed_by t o)
        ≡ total_of t o.after -ℤ total_of t o.before }
{}

/// An order that does not change what its account holds has only its last line, with all changes 0.
pub fn an_order_that_changes_no_holding_has_one_line()
    ensures none { (t : AcceptedTables) (o : TriedOrder) → o.after.holdings ≡ o.before.holdings → changed_by t o ≡ [] }
    ensures alone { (t : AcceptedTables) (o : TriedOrder) → o.after.holdings ≡ o.before.holdings
        → order_text t o ≡ line (order_line t o) }
    ensures total { (t : AcceptedTables) (o : TriedOrder) → o.after.holdings ≡ o.before.holdings
        → total_of t o.after -ℤ total_of t o.before ≡ pos 0 }
    ensures due { (t : AcceptedTables) (o : TriedOrder) → o.after.holdings ≡ o.before.holdings
        → due_at t o.after -ℤ due_at t o.before ≡ pos 0 }
{}

/// An order whose quantities add up to 0 in each contract changes no holding of its account.
pub fn an_order_that_adds_up_to_nothing_changes_no_holding()
    ensures { (contracts : List Contract) (positions : List PositionRecord) (records : List OrderRecord) (order : List ℕ)
        → ((contract : List ℕ) → net_of (positions_of_order records order) (account_of_order records order) contract ≡ pos 0)
        → holdings_after contracts (portfolios_of contracts positions) records order
        ≡ holdings_before (portfolios_of contracts positions) records order }
{}

/// The portfolio before an order is the portfolio of its account among the given portfolios, or holds nothing if there
/// is none. The portfolio after the order is the account's portfolio from the position records with the order's records
/// appended. So the amounts before and after in the order's lines are the amounts in the account's lines in the
/// statements of these portfolios.
pub fn before_and_after_are_those_of_statements()
    ensures before { (contracts : List Contract) (portfolios : List AccountHoldings) (records : List OrderRecord) (order : List ℕ)
        (p : AccountHoldings) → find (λ q. bytes_eq q.account (account_of_order records order)) portfolios ≡ Some p
        → (tried_order contracts portfolios records order).before ≡ p }
    ensures nothing { (contracts : List Contract) (portfolios : List AccountHoldings) (records : List OrderRecord) (order : List ℕ)
        → find (λ q. bytes_eq q.account (account_of_order records order)) portfolios ≡ None
        → (tried_order contracts portfolios records order).before.holdings ≡ [] }
    ensures after { (t : AcceptedTables) (positions : List PositionRecord) (portfolios : List AccountHoldings)
        (records : List OrderRecord) (order : List ℕ) → portfolios_under t positions ≡ Ok portfolios
        → is_among (orders_in records) order ≡ true
        → find (λ q. bytes_eq q.account (account_of_order records order))
        (portfolios_of t.contracts (positions ++ positions_of_order records order))
        ≡ Some (tried_order t.contracts portfolios records order).after }
{}

/// If positions are accepted, and orders on them, the position records are also accepted with the records of any one
/// order appended. So these have a statement, in which the portfolio of the order's account is the portfolio after the
/// order.
pub fn an_orders_records_are_accepted_behind_the_positions()
    ensures { (params orders : List ℕ) (t : AcceptedTables) (positions : List PositionRecord) (portfolios : List AccountHoldings)
        (records : List OrderRecord) (tried : TriedOrders) (order : List ℕ) → accepted_of params ≡ Ok t
        → portfolios_under t positions ≡ Ok portfolios → orders_of orders ≡ Ok records
        → orders_bound t.contracts portfolios records ≡ Ok tried → is_among (orders_in records) order ≡ true
        → portfolios_under t (positions ++ positions_of_order records order)
        ≡ Ok (portfolios_of t.contracts (positions ++ positions_of_order records order)) }
{}

/// The requirement in a commodity without held contracts is 0. An account that holds nothing has total 0 and amount due
/// 0.
pub fn what_holds_nothing_requires_nothing()
    ensures commodity { (t : AcceptedTables) (p : AccountHoldings) (c : ℕ) → c < length t.commodities
        → is_commodity_held t p.holdings c ≡ false → requirement_at t p c ≡ pos 0 }
    ensures commodities { (t : AcceptedTables) (p : AccountHoldings) → p.holdings ≡ [] → (c : ℕ) → c < length t.commodities
        → requirement_at t p c ≡ pos 0 }
    ensures total { (t : AcceptedTables) (p : AccountHoldings) → p.holdings ≡ [] → total_of t p ≡ pos 0 }
    ensures due { (t : AcceptedTables) (p : AccountHoldings) → p.holdings ≡ [] → due_at t p ≡ pos 0 }
{}

/// The lines of an order do not depend on the other orders. Without orders the text is empty. The text of two lists of
/// orders, joined, is the text of the first followed by the text of the second.
pub fn orders_stand_by_themselves()
    ensures same { (t : AcceptedTables) (portfolios : List AccountHoldings) (these those : List OrderRecord) (order : List ℕ)
        → filter (λ r. bytes_eq r.order order) these ≡ filter (λ r. bytes_eq r.order order) those
        → order_text t (tried_order t.contracts portfolios these order) ≡ order_text t (tried_order t.contracts portfolios those order) }
    ensures none { (t : AcceptedTables) → whatif_text t [] ≡ [] }
    ensures in_order { (t : AcceptedTables) (some others : List TriedOrder)
        → whatif_text t (some ++ others) ≡ whatif_text t some ++ whatif_text t others }
{}

/// A fault of the statement comes first, then a fault in reading the orders, and then a fault in binding them. If there
/// is none, the result is the text of the orders.
pub fn faults_come_in_order()
    ensures statement { (params positions orders : List ℕ) (e : SpanFault) → statement_of params positions ≡ Err e
        → tried_of params positions orders ≡ Err e }
    ensures orders { (params positions orders : List ℕ) (t : AcceptedTables) (records : List PositionRecord)
        (portfolios : List AccountHoldings) (e : OrderFault) → accepted_of params ≡ Ok t → positions_of positions ≡ Ok records
        → portfolios_under t records ≡ Ok portfolios → orders_of orders ≡ Err e
        → tried_of params positions orders ≡ Err (fault.Orders e) }
    ensures bind { (params positions orders : List ℕ) (t : AcceptedTables) (records : List PositionRecord)
        (portfolios : List AccountHoldings) (tried : List OrderRecord) (e : OrderBindFault) → accepted_of params ≡ Ok t
        → positions_of positions ≡ Ok records → portfolios_under t records ≡ Ok portfolios → orders_of orders ≡ Ok tried
        → orders_bound t.contracts portfolios tried ≡ Err e → tried_of params positions orders ≡ Err (fault.BindOrders e) }
    ensures text { (params positions orders : List ℕ) (t : AcceptedTables) (records : List PositionRecord)
        (portfolios : List AccountHoldings) (all : List OrderRecord) (tried : TriedOrders) → accepted_of params ≡ Ok t
        → positions_of positions ≡ Ok records → portfolios_under t records ≡ Ok portfolios → orders_of orders ≡ Ok all
        → orders_bound t.contracts portfolios all ≡ Ok tried → tried_of params positions orders ≡ Ok (whatif_text t tried.orders) }
{}
