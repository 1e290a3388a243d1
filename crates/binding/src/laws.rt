//! Lemmas about binding, in the terms of the method. Each is the contract of a function with an empty body.
ghost use Rattle.std.specs.Prelude.{◌≡◌, ◌≤◌, ◌&&◌, ℕ, false, true, length, map};
ghost use Rattle.std.specs.Prelude.{nat_abs, List, Some, None};
ghost use Rattle.std.specs.List.{list_any};
ghost use Rattle.binding.specs.Binding.{bind_fault, exceeds_held, exceeds_net, first_unfit};
ghost use Rattle.binding.specs.Binding.{is_first_of_account, is_first_of_contract, is_unknown};
ghost use Rattle.binding.specs.declared.faults.BindFault.TheVariants as bind;
ghost use Rattle.binding.specs.declared.faults.BindFault.{BindFault};
ghost use Rattle.span_tables.specs.Names.{is_among};
ghost use Rattle.span_tables.specs.Net.{holdings_of, net_of};
ghost use Rattle.span_tables.specs.declared.limits.TheConstants.{MAX_HELD, MAX_NET};
ghost use Rattle.span_tables.specs.declared.records.Contract.{Contract};
ghost use Rattle.span_tables.specs.declared.records.PositionRecord.{PositionRecord};

/// Positions without a fault are of known contracts, and the nets and the number of contracts of each account are
/// within the limits.
pub fn accepted_positions_are_within_limits()
    ensures known { (contracts : List Contract) (all : List PositionRecord) → bind_fault contracts all ≡ None
        → list_any (is_unknown contracts) all ≡ false }
    ensures nets { (contracts : List Contract) (all : List PositionRecord) → bind_fault contracts all ≡ None
        → (account contract : List ℕ) → nat_abs (net_of all account contract) ≤ MAX_NET }
    ensures held { (contracts : List Contract) (all : List PositionRecord) → bind_fault contracts all ≡ None
        → (account : List ℕ) → is_among (map (λ p. p.account) all) account ≡ true
        → length (holdings_of contracts all account) ≤ MAX_HELD }
{}

/// An unknown contract is reported before a net out of range, and a net out of range before too many contracts held.
pub fn faults_of_positions_go_in_order()
    ensures unknown { (contracts : List Contract) (all : List PositionRecord) (y : BindFault)
        → first_unfit bind.UnknownContract (λ earlier p. is_unknown contracts p) all ≡ Some y
        → bind_fault contracts all ≡ Some y }
    ensures net { (contracts : List Contract) (all : List PositionRecord) (y : BindFault)
        → list_any (is_unknown contracts) all ≡ false
        → first_unfit bind.NetOutOfRange (λ earlier p. is_first_of_contract earlier p && exceeds_net all p) all ≡ Some y
        → bind_fault contracts all ≡ Some y }
    ensures held { (contracts : List Contract) (all : List PositionRecord) (y : BindFault)
        → list_any (is_unknown contracts) all ≡ false → list_any (exceeds_net all) all ≡ false
        → first_unfit bind.TooManyHeld (λ earlier p. is_first_of_account earlier p && exceeds_held contracts all p) all
        ≡ Some y
        → bind_fault contracts all ≡ Some y }
{}
