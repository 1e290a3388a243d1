//! Whole files and the changes that the orders would make, each computed from the bytes of the three files by the
//! definitions alone.
#![tactic(auto, unfolding(crate::specs::near::OnLiterals::on_literals))]

ghost use Rattle.binding.specs.declared.faults.OrderBindFault.TheVariants as bind;
ghost use Rattle.statement_text.specs.declared.faults.SpanFault.TheVariants as fault;
ghost use Rattle.statement_text.specs.near.Samples.{ca, one_future};
ghost use Rattle.std.specs.Prelude.{◌++◌, ◌≡◌, Err, Ok, [], codes};
ghost use Rattle.whatif.specs.Whatif.{tried_of, whatif_of};

// Three orders, each evaluated by itself: one more contract, the held contract sold, and a contract for an account that
// held nothing.
fn three_orders()
    ensures { tried_of one_future (codes "X,FA,1\n") (codes "MORE,X,FA,1\n" ++ codes "BACK,X,FA,-1\n" ++ codes "NEW,Y,FA,-1\n")
        ≡ Ok (codes "CHANGE,MORE,X,D1,AA,1200,2400,1200\nORDER,MORE,X,D1,1200,2400,1200\n"
        ++ codes "CHANGE,BACK,X,D1,AA,1200,0,-1200\nORDER,BACK,X,D1,1200,0,-1200\n"
        ++ codes "CHANGE,NEW,Y,D1,AA,0,1200,1200\nORDER,NEW,Y,D1,0,1200,1200\n") }
{}

// A number of workers that is not accepted, and a record in a contract that the parameter set does not have.
fn refused_orders()
    ensures workers { whatif_of 0 one_future (codes "X,FA,1\n") [] ≡ Err fault.Workers }
    ensures binding { whatif_of 1 one_future (codes "X,FA,1\n") (codes "O,X,FB,1\n")
        ≡ Err (fault.BindOrders (bind.UnknownContract 1 (codes "O"))) }
{}

// One of two short calls worth 120 each is bought back. The amount owed for them is added to the requirement, before
// and after.
fn option_values()
    ensures { tried_of (codes "SET,D2,2,USD\n" ++ codes "COMMODITY,AA,500,SUM\n" ++ ca (codes ",120"))
        (codes "X,CA,-2\n") (codes "CLOSE,X,CA,1\n")
        ≡ Ok (codes "CHANGE,CLOSE,X,D2,AA,1000,500,-500\nORDER,CLOSE,X,D2,1000,500,-500,1240,620,-620\n") }
{}
