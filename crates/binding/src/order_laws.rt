//! Lemmas about evaluated orders, in the terms of the method. Each is the contract of a function with an empty body.
ghost use Rattle.std.specs.Prelude.{◌≡◌, ◌<◌, ◌&&◌, ◌++◌, ℕ, List, None, Some, All, bytes_eq, false, filter, length, map, true};
ghost use Rattle.std.specs.List.{list_any};
ghost use Rattle.binding.specs.OrderBinding.{exceeds_held_with, exceeds_net_with, first_unfit_order, is_first_of_leg};
ghost use Rattle.binding.specs.OrderBinding.{holdings_after, holdings_before, is_first_of_order, is_of_unknown};
ghost use Rattle.binding.specs.OrderBinding.{order_bind_fault, orders_bound, tried_order};
ghost use Rattle.binding.specs.Trades.{as_order, held_after, order_trade, trade_fault, traded};
ghost use Rattle.binding.specs.declared.faults.OrderBindFault.TheVariants as order;
ghost use Rattle.binding.specs.declared.faults.OrderBindFault.{OrderBindFault};
ghost use Rattle.binding.specs.declared.trades.Trade.{Trade};
ghost use Rattle.span_tables.specs.Holdings.{ArePortfolio, fits};
ghost use Rattle.span_tables.specs.Names.{has_repeat, is_among};
ghost use Rattle.span_tables.specs.Net.{AccountHoldings, holdings_of, portfolios_of};
ghost use Rattle.span_tables.specs.Orders.{account_of_order, holdings_among, orders_in, positions_of_order};
ghost use Rattle.span_tables.specs.declared.portfolios.Holding.{Holding};
ghost use Rattle.span_tables.specs.declared.records.Contract.{Contract};
ghost use Rattle.span_tables.specs.declared.records.OrderRecord.{OrderRecord};
ghost use Rattle.span_tables.specs.declared.records.PositionRecord.{PositionRecord};

/// On the portfolios of positions, an order's account has the holdings of the positions without the order. With the
/// order it has the holdings of the positions followed by the order's records.
pub fn orders_are_tried_on_the_positions()
    ensures before { (contracts : List Contract) (positions : List PositionRecord) (records : List OrderRecord) (order : List ℕ)
        → holdings_before (portfolios_of contracts positions) records order
        ≡ holdings_of contracts positions (account_of_order records order) }
    ensures after { (contracts : List Contract) (positions : List PositionRecord) (records : List OrderRecord) (order : List ℕ)
        → holdings_after contracts (portfolios_of contracts positions) records order
        ≡ holdings_of contracts (positions ++ positions_of_order records order) (account_of_order records order) }
{}

/// If two files have the same records of an order, the order is the same in both. Orders do not affect each other.
pub fn orders_do_not_see_one_another()
    ensures same { (contracts : List Contract) (portfolios : List AccountHoldings) (these those : List OrderRecord) (order : List ℕ)
        → filter (λ r. bytes_eq r.order order) these ≡ filter (λ r. bytes_eq r.order order) those
        → tried_order contracts portfolios these order ≡ tried_order contracts portfolios those order }
    ensures alone { (contracts : List Contract) (portfolios : List AccountHoldings) (records : List OrderRecord) (order : List ℕ)
        → tried_order contracts portfolios (filter (λ r. bytes_eq r.order order) records) order
        ≡ tried_order contracts portfolios records order }
{}

/// Orders without a fault are of known contracts. The account of each order has a portfolio with it: the number of
/// contracts and each net are within the limits.
pub fn accepted_orders_are_within_limits()
    ensures known { (contracts : List Contract) (portfolios : List AccountHoldings) (all : List OrderRecord)
        → order_bind_fault contracts portfolios all ≡ None → list_any (is_of_unknown contracts) all ≡ false }
    ensures portfolios { (contracts : List Contract) (portfolios : List AccountHoldings) (all : List OrderRecord)
        → has_repeat (λ x y. bytes_eq x.id y.id) contracts ≡ false → All (λ p. ArePortfolio p.holdings) portfolios
        → order_bind_fault contracts portfolios all ≡ None
        → (order : List ℕ) → is_among (orders_in all) order ≡ true → ArePortfolio (holdings_after contracts portfolios all order) }
{}

/// The holdings of an order's account with the order are in contracts that the tables have.
pub fn orders_are_of_contracts_that_there_are()
    ensures { (contracts : List Contract) (portfolios : List AccountHoldings) (all : List OrderRecord) (order : List ℕ)
        → fits (length contracts) (holdings_after contracts portfolios all order) ≡ true }
{}

/// Over all orders, an unknown contract is reported before a net out of range, and a net out of range before too many
/// contracts held.
pub fn faults_of_orders_go_in_order()
    ensures unknown { (contracts : List Contract) (portfolios : List AccountHoldings) (all : List OrderRecord) (y : OrderBindFault)
        → first_unfit_order order.UnknownContract (λ earlier r. is_of_unknown contracts r) all ≡ Some y
        → order_bind_fault contracts portfolios all ≡ Some y }
    ensures net { (contracts : List Contract) (portfolios : List AccountHoldings) (all : List OrderRecord) (y : OrderBindFault)
        → list_any (is_of_unknown contracts) all ≡ false
        → first_unfit_order order.NetOutOfRange
        (λ earlier r. is_first_of_leg earlier r && exceeds_net_with contracts portfolios all r) all ≡ Some y
        → order_bind_fault contracts portfolios all ≡ Some y }
    ensures held { (contracts : List Contract) (portfolios : List AccountHoldings) (all : List OrderRecord) (y : OrderBindFault)
        → list_any (is_of_unknown contracts) all ≡ false → list_any (exceeds_net_with contracts portfolios all) all ≡ false
        → first_unfit_order order.TooManyHeld
        (λ earlier r. is_first_of_order earlier r && exceeds_held_with contracts portfolios all r) all ≡ Some y
        → order_bind_fault contracts portfolios all ≡ Some y }
{}

/// Trades on an account are bound as an order file of one order of that account with these trades. So a trial of orders
/// and trades on the account have the same results.
pub fn trades_are_bound_as_an_order()
    ensures { (contracts : List Contract) (portfolios : List AccountHoldings) (order account : List ℕ) (trades : List Trade)
        → 0 < length trades → orders_bound contracts portfolios (map (order_trade order account) trades)
        ≡ as_order portfolios order (holdings_among portfolios account)
        (traded contracts (holdings_among portfolios account) account trades) }
{}

/// Trades without a fault leave the account a portfolio: the number of contracts and each net are within the limits.
pub fn accepted_trades_are_within_limits()
    ensures { (contracts : List Contract) (held : List Holding) (account : List ℕ) (trades : List Trade)
        → has_repeat (λ x y. bytes_eq x.id y.id) contracts ≡ false → ArePortfolio held → 0 < length trades
        → trade_fault contracts held account trades ≡ None → ArePortfolio (held_after contracts held account trades) }
{}
