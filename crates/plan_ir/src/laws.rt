//! Lemmas about the definitions. Each is the contract of a function with an empty body.
ghost use Rattle.std.specs.Prelude.{◌≡◌, ℕ, ◌<◌, List, All, length};
ghost use Rattle.std.specs.List.Sorted.{IsStrictlyIncreasing};
ghost use Rattle.span_money.specs.Numbers.{int_sum_by};
ghost use Rattle.span_tables.specs.Accepted.{IsWithinLimits};
ghost use Rattle.span_tables.specs.Net.{held_contracts};
ghost use Rattle.span_tables.specs.Tables.{AcceptedTables};
ghost use Rattle.span_tables.specs.declared.portfolios.Holding.{Holding};
ghost use Rattle.inter_credit.specs.OptionValue.{position_value};
ghost use Rattle.plan_ir.specs.Figures.{value_to};
ghost use Rattle.plan_ir.specs.Plans.{StepView, inputs_at, is_step_among, users_of};

/// The users of a step are exactly the steps that have it among their inputs, each once and in increasing order.
pub fn users_have_it_among_their_inputs()
    ensures just { (plan : List StepView) (k user : ℕ)
        → is_step_among user (users_of plan k) ≡ is_step_among k (inputs_at plan user) }
    ensures steps { (plan : List StepView) (k : ℕ) → All (λ user. user < length plan) (users_of plan k) }
    ensures rising { (plan : List StepView) (k : ℕ) → IsStrictlyIncreasing (users_of plan k) }
{}

/// The option value of an account over all commodities is the sum over all its holdings of net quantity times option
/// value.
pub fn option_value_counts_every_holding()
    ensures { (t : AcceptedTables) (holdings : List Holding) → IsWithinLimits t
        → value_to t holdings (length t.commodities)
        ≡ int_sum_by position_value (held_contracts t.contracts holdings) }
{}
