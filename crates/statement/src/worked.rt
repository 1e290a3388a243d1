//! Test vectors: the counts of parameter files, and rolls, computed by the definitions from the bytes of the files.
#![tactic(auto, unfolding(crate::specs::near::OnLiterals::on_literals))]

ghost use Rattle.std.specs.Prelude.{◌++◌, ◌≡◌, codes};
ghost use Rattle.binding.specs.declared.faults.BindFault.TheVariants as bind;
ghost use Rattle.statement.specs.Counts.{counts_of};
ghost use Rattle.statement.specs.Rolls.{roll_of};
ghost use Rattle.statement_text.specs.near.Samples.{commodity, fa, one_future};
ghost use Rattle.statement_text.specs.declared.faults.SpanFault.TheVariants as span_fault;

// Counts that are tested together differ: commodities, contracts and tiers; tiers, intracommodity spreads and spot
// months; commodities and intercommodity spreads.
fn counts()
    ensures contracts { counts_of (
        codes "SET,D_1,1,USD\n"
        ++ commodity (codes "AA") ++ commodity (codes "BB")
        ++ codes "TIER,AA,1,202501,202503\n"
        ++ codes "TIER,AA,2,202504,202506\n"
        ++ codes "TIER,AA,3,202507,202509\n"
        ++ fa)
        ≡ Ok (codes "OK,D_1,2,1,3,0,0,0\n") }
    ensures spreads { counts_of (
        codes "SET,D_1,1,USD\n"
        ++ commodity (codes "AA")
        ++ codes "TIER,AA,1,202501,202503\n"
        ++ codes "TIER,AA,2,202504,202506\n"
        ++ codes "SPOT,AA,202503,10,20\n"
        ++ codes "SPOT,AA,202504,10,20\n"
        ++ codes "SPOT,AA,202505,10,20\n"
        ++ codes "INTRA,AA,1,250,1,A,1,2,B,1\n")
        ≡ Ok (codes "OK,D_1,1,0,2,1,3,0\n") }
    ensures between_commodities { counts_of (
        codes "SET,D_1,1,USD\n"
        ++ commodity (codes "AA") ++ commodity (codes "BB")
        ++ codes "INTER,1,5000,AA,A,1,BB,B,1\n"
        ++ codes "INTER,2,5000,AA,A,1,BB,B,1\n"
        ++ codes "INTER,3,5000,AA,A,1,BB,B,1\n")
        ≡ Ok (codes "OK,D_1,2,0,0,0,0,3\n") }
{}

// A future under a parameter set without option values and then under one with them: each line has the fields of its
// own set.
fn into_option_values()
    ensures { roll_of 1 one_future (
        codes "SET,D2,2,USD\n" ++ commodity (codes "AA")
        ++ codes "CONTRACT,FA,AA,F,202503,1,1,0,0,-400,-400,400,400,-800,-800,800,800,-1200,-1200,1200,1200,-1188,1188,0\n")
        (codes "X,FA,1\n")
        ≡ Ok (codes "R,X,D1,AA,1200,13,0,0,0,0,1200\nT,X,D1,1200\n"
        ++ codes "R,X,D2,AA,1200,13,0,0,0,0,1200\nT,X,D2,1200,0,1200,0\n") }
{}

// A contract that the next parameter set lacks.
fn unknown_contract_of_next()
    ensures { roll_of 1 one_future (codes "SET,D2,1,USD\n") (codes "X,FA,-1\n")
        ≡ Err (span_fault.NextBind (bind.UnknownContract 1 (codes "X"))) }
{}
