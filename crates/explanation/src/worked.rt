//! Whole files and their explanations, each computed from the bytes of both files by the definitions alone.
#![tactic(auto, unfolding(crate::specs::near::OnLiterals::on_literals))]

ghost use Rattle.explanation.specs.Explanation.{explanation_of};
ghost use Rattle.statement_text.specs.near.Samples.{fa, spread_and_spot, two_commodities};
ghost use Rattle.std.specs.Prelude.{◌++◌, ◌≡◌, None, Ok, codes};

// A third of a spread: fractions with four and with eight decimal places, and charges before they are rounded up.
fn part_of_a_spread()
    ensures { explanation_of (spread_and_spot (codes "250,1,A,3,2,B,3")) (codes "X,FA,1\nX,FA2,-1\n") None
        ≡ Ok (codes "HELD,X,D1,AA,FA,F,202503,1\nHELD,X,D1,AA,FA2,F,202506,-1\n"
        ++ codes "SUMS,X,D1,AA,0,0,0,0,0,0,0,0,0,0,0,0,0,0,0,0\nSCAN,X,D1,AA,0,1,2,0\n"
        ++ codes "MONTH,X,D1,AA,202503,1,0.0001\nMONTH,X,D1,AA,202506,-1,-0.0001\n"
        ++ codes "INTRA,X,D1,AA,1,A,0.3333,250,83.325\n"
        ++ codes "SPOT,X,D1,AA,202503,0.9999,10,0.0001,20,10.001\n"
        ++ codes "CREDIT,X,D1,AA,0,0,0\nSHORT,X,D1,AA,0,0,SUM,0\n"
        ++ codes "R,X,D1,AA,0,1,84,11,0,0,95\nT,X,D1,95\n") }
{}

// A spread between commodities has a line in both, and gives each of them a credit.
fn two_commodities_with_a_credit()
    ensures { explanation_of (two_commodities fa (codes "5000,AA,A,1,BB,B,1")) (codes "X,FA,1\nX,FB,-1\n") None
        ≡ Ok (codes "HELD,X,D1,AA,FA,F,202503,1\n"
        ++ codes "SUMS,X,D1,AA,0,0,-400,-400,400,400,-800,-800,800,800,-1200,-1200,1200,1200,-1188,1188\n"
        ++ codes "SCAN,X,D1,AA,1200,13,14,1200\nMONTH,X,D1,AA,202503,1,1\nINTER,X,D1,AA,1,A,1,1,5000\n"
        ++ codes "CREDIT,X,D1,AA,1200,1,5000\nSHORT,X,D1,AA,0,0,SUM,0\nR,X,D1,AA,1200,13,0,0,600,0,600\n"
        ++ codes "HELD,X,D1,BB,FB,F,202503,-1\n"
        ++ codes "SUMS,X,D1,BB,0,0,300,300,-300,-300,600,600,-600,-600,900,900,-900,-900,891,-891\n"
        ++ codes "SCAN,X,D1,BB,900,11,12,900\nMONTH,X,D1,BB,202503,-1,-1\nINTER,X,D1,BB,1,A,1,1,5000\n"
        ++ codes "CREDIT,X,D1,BB,900,-1,5000\nSHORT,X,D1,BB,0,0,SUM,0\nR,X,D1,BB,900,11,0,0,450,0,450\n"
        ++ codes "T,X,D1,1050\n") }
{}
