//! Test vectors for faults and orders, computed by the definitions alone.
#![tactic(auto, unfolding(crate::specs::near::OnLiterals::on_literals))]

ghost use Rattle.std.specs.Prelude.{◌≡◌, ◌+◌, [], ◌∷◌, Ok, Some, codes, neg_ℤ, pos};
ghost use Rattle.binding.specs.Binding.{bind_fault, bind_faults};
ghost use Rattle.binding.specs.OrderBinding.{order_bind_fault, orders_bound};
ghost use Rattle.binding.specs.near.Samples.{contract_of, order_of, portfolio_of, position_of};
ghost use Rattle.binding.specs.declared.faults.BindFault.TheVariants as bind;
ghost use Rattle.binding.specs.declared.faults.OrderBindFault.TheVariants as order;
ghost use Rattle.span_tables.specs.declared.limits.TheConstants.{MAX_NET};

// B1 of the last record is reported before B2 of the first.
fn unknown_contract_first()
    ensures { bind_fault (contract_of (codes "FA") ∷ [])
        (position_of (codes "X") (codes "FA") (pos (MAX_NET + 1)) ∷ position_of (codes "Y") (codes "ZZ") (pos 1) ∷ [])
        ≡ Some (bind.UnknownContract 2 (codes "Y")) }
{}

// Each record of an unknown contract, and then the net of the other records, once, with the number of its first record
// in the file.
fn unknown_contracts_and_a_net()
    ensures { bind_faults (contract_of (codes "FA") ∷ [])
        (position_of (codes "X") (codes "FZ") (pos 1) ∷ position_of (codes "X") (codes "FA") (pos 60000)
        ∷ position_of (codes "Y") (codes "FZ") (pos 5) ∷ position_of (codes "X") (codes "FA") (pos 60000) ∷ [])
        ≡ bind.UnknownContract 1 (codes "X") ∷ bind.UnknownContract 3 (codes "Y") ∷ bind.NetOutOfRange 2 (codes "X") ∷ [] }
{}

// An order that closes the position in one contract and opens one in another, and an order of a new account.
fn orders_that_fit()
    ensures { orders_bound (contract_of (codes "FA") ∷ contract_of (codes "FB") ∷ []) (portfolio_of (codes "X") 0 (pos 5) ∷ [])
        (order_of (codes "T") (codes "X") (codes "FB") (pos 2) ∷ order_of (codes "U") (codes "Y") (codes "FA") (pos 1)
        ∷ order_of (codes "T") (codes "X") (codes "FA") (neg_ℤ (pos 5)) ∷ [])
        ≡ Ok (record {
          portfolios = portfolio_of (codes "X") 0 (pos 5) ∷ [];
          orders = record { order = codes "T"; before = portfolio_of (codes "X") 0 (pos 5); after = portfolio_of (codes "X") 1 (pos 2) }
              ∷ record {
                order = codes "U";
                before = record { account = codes "Y"; holdings = [] };
                after = portfolio_of (codes "Y") 0 (pos 1);
              } ∷ [];
        }) }
{}

// B2: the account's net with the order is checked, and the first record of the order and contract is reported.
fn net_with_the_position()
    ensures { order_bind_fault (contract_of (codes "FA") ∷ contract_of (codes "FB") ∷ []) (portfolio_of (codes "X") 1 (pos MAX_NET) ∷ [])
        (order_of (codes "T") (codes "X") (codes "FA") (pos 1) ∷ order_of (codes "T") (codes "X") (codes "FB") (pos 1) ∷ [])
        ≡ Some (order.NetOutOfRange 2 (codes "T")) }
{}
