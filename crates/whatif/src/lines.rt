//! The lines of an order (docs/FORMATS.md, "Evaluated orders").
ghost use Rattle.std.specs.Prelude.{◌≡◌, ◌++◌, ◌<◌, OnOk, flat_map, length, pos};
ghost use Rattle.binding.specs.OrderBinding.{TriedOrder};
ghost use Rattle.inter_credit.specs.OptionValue.{due_of};
ghost use Rattle.span_money.specs.LineFields.{line};
ghost use Rattle.whatif.specs.Whatif.{change_line, change_of, changed_by, due_at, order_line, order_text};
ghost use Rattle.whatif.specs.near.Trials.{IsTried, change_text};

use span_money::amounts::Money;
use span_money::line_fields::{Field, push_line_of_numbers};
use span_tables::name::Name;
use span_tables::tables::Tables;
use statement_text::lines::due;
use std::alloc::AllocError;
use std::marker::Model;
use step_scheduler::rows::Row;

/// An order that is evaluated: its name, and the rows of its account before it and after it.
#[derive(Drop)]
pub struct Trial<'a> {
    order: &'a Name,
    before: &'a Row,
    after: &'a Row,
}

impl<'a> Model for Trial<'a> {
    ghost use Rattle.std.specs.Prelude.{◌≡◌};
    ghost use Rattle.whatif.specs.near.Trials.{TrialView};

    ghost Value = { TrialView };

    ghost view = { λ t. record {
      tables = t.after.now.set.tables;
      order = t.order.now;
      before = t.before.now.portfolio;
      after = t.after.now.portfolio;
    } };

    ghost invariant = { λ t. t.before.now.set.tables ≡ t.after.now.set.tables };
}

// Returns the fields of a line for an amount: before, after, and after minus before.
fn change_of(before: Money, after: Money) -> [i128; 3]
    ensures { result ≡ change_of before after }
{
    let before = before.get();
    let after = after.get();
    [before, after, after - before]
}

impl<'a> Trial<'a> {
    /// Creates the evaluation of the order of a name, from the rows of its account before it and after it. Both rows are
    /// under one parameter set.
    pub fn new(order: &'a Name, before: &'a Row, after: &'a Row) -> Trial<'a>
        requires { before.now.set.tables ≡ after.now.set.tables }
        ensures { result ≡ record {
          tables = after.now.set.tables;
          order = order.now;
          before = before.now.portfolio;
          after = after.now.portfolio;
        } }
    {
        Trial {
            order,
            before,
            after,
        }
    }

    // Returns the tables of the parameter set.
    fn tables(&self) -> &Tables
        ensures { result.now ≡ self.now.tables }
    {
        self.after.set().tables()
    }

    // Appends the line of the commodity of a number, if the order changes its requirement.
    #[tactic(auto, unfolding(crate::specs::Whatif::change_line))]
    fn push_change(&self, out: &mut Vec<u8>, commodity: usize) -> Result<(), AllocError>
        requires { commodity < length self.now.tables.commodities }
        ensures { (o : TriedOrder) → IsTried self.now o
            → OnOk result (out.new.items ≡ out.old.items ++ change_text self.now.tables o commodity) }
    {
        let before = self.before.figures(commodity).requirement;
        let after = self.after.figures(commodity).requirement;
        if before.get() == after.get() {
            return Ok(());
        }
        let ids = [
            Field::Bytes(self.order.as_bytes()),
            Field::Bytes(self.after.account().as_bytes()),
            Field::Bytes(self.tables().set_id().as_bytes()),
            Field::Bytes(self.tables().commodities()[commodity].id.as_bytes()),
        ];
        push_line_of_numbers(out, "CHANGE", &ids, &change_of(before, after))
    }

    // Appends the line of each commodity whose requirement the order changes.
    fn push_changes(&self, out: &mut Vec<u8>) -> Result<(), AllocError>
        ensures { (o : TriedOrder) → IsTried self.now o → OnOk result (out.new.items ≡ out.old.items
            ++ flat_map (λ c. line (change_line self.now.tables o c)) (changed_by self.now.tables o)) }
    {
        for commodity in 0..self.tables().commodities().len() {
            self.push_change(out, commodity)?;
        }
        Ok(())
    }

    // Returns the amount due from the account after its option value, before the order and after it, and the
    // difference.
    fn change_of_due(&self) -> [i128; 3]
        ensures { (o : TriedOrder) → IsTried self.now o
            → result ≡ change_of (due_at self.now.tables o.before) (due_at self.now.tables o.after) }
    {
        let before = due(self.before.total(), self.before.value());
        let after = due(self.after.total(), self.after.value());
        [before, after, after - before]
    }

    // Appends the last line of the order: the change of the account's total and, if options have a value, the change of
    // the amount due.
    #[tactic(auto, unfolding(crate::specs::Whatif::order_line))]
    fn push_totals(&self, out: &mut Vec<u8>) -> Result<(), AllocError>
        ensures { (o : TriedOrder) → IsTried self.now o
            → OnOk result (out.new.items ≡ out.old.items ++ line (order_line self.now.tables o)) }
    {
        let ids = [
            Field::Bytes(self.order.as_bytes()),
            Field::Bytes(self.after.account().as_bytes()),
            Field::Bytes(self.tables().set_id().as_bytes()),
        ];
        let [before, after, change] = change_of(self.before.total(), self.after.total());
        if !self.tables().facts().options_have_value {
            return push_line_of_numbers(out, "ORDER", &ids, &[before, after, change]);
        }
        let [due_before, due_after, change_of_due] = self.change_of_due();
        let numbers = [before, after, change, due_before, due_after, change_of_due];
        push_line_of_numbers(out, "ORDER", &ids, &numbers)
    }

    /// Appends the lines of the order.
    #[tactic(auto, unfolding(crate::specs::Whatif::order_text))]
    pub fn push_to(&self, out: &mut Vec<u8>) -> Result<(), AllocError>
        ensures { (o : TriedOrder) → IsTried self.now o
            → OnOk result (out.new.items ≡ out.old.items ++ order_text self.now.tables o) }
    {
        self.push_changes(out)?;
        self.push_totals(out)
    }
}
