//! Parameter sets that are replaced in a session, computed by the definitions alone.
#![tactic(auto, unfolding(crate::specs::near::OnLiterals::on_literals))]

ghost use Rattle.session.specs.near.Samples.{held_futures, margin_behind, next_set, set_text, two_futures};
ghost use Rattle.sources.specs.declared.ReadFault.TheVariants as read;
ghost use Rattle.statement_text.specs.near.Samples.{one_future};
ghost use Rattle.std.specs.Prelude.{◌≡◌, Err, Ok, Some, codes};

// A parameter set is rejected if it lacks the contract of a holding, or if its file cannot be read.
fn refused_sets()
    ensures lost { set_text two_futures held_futures (codes "next.csv") (Some (Ok one_future))
        ≡ Ok (codes "refused,1,positions: B1 UnknownContract account Y contract FA2\n") }
    ensures missing { set_text two_futures held_futures (codes "a,b") (Some (Err read.Failed)) ≡ Ok (codes "refused,1,file: a,b\n") }
{}

// Another parameter set, whose contracts have other indices: holdings are matched by the names of their contracts.
fn exchanged_set()
    ensures { margin_behind one_future (codes "X,FA,1\n") (codes "next.csv")
        (Some (Ok next_set))
        ≡ Ok (codes "R,X,D2,AA,1500,13,0,0,0,0,1500\nT,X,D2,1500\ndone,2\n") }
{}
