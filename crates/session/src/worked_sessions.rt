//! Whole sessions, computed from the bytes of both files and the lines of the requests by the definitions alone.
#![tactic(auto, unfolding(crate::specs::near::OnLiterals::on_literals))]

ghost use Rattle.session.specs.Conversations.{session_of};
ghost use Rattle.session.specs.near.Samples.{asking, asking_in_vain, too_long};
ghost use Rattle.statement_text.specs.near.Samples.{one_future};
ghost use Rattle.std.specs.Prelude.{◌++◌, ◌∷◌, ◌≡◌, Ok, [], codes};

// A TRY changes nothing; a FILL is kept.
fn trades()
    ensures { session_of one_future (codes "X,FA,1\n") (asking (codes "TRY,BUY,X,FA,2") ∷ asking (codes "FILL,X,FA,2")
        ∷ asking (codes "MARGIN,N") ∷ asking (codes "POSITIONS") ∷ asking (codes "MARGIN,X") ∷ [])
        ≡ Ok (codes "OK,D1,1,1,0,0,0,0\ndone,0\n"
        ∷ (codes "CHANGE,BUY,X,D1,AA,1200,3600,2400\n" ++ codes "ORDER,BUY,X,D1,1200,3600,2400\ndone,1\n")
        ∷ codes "T,X,D1,3600\ndone,2\n"
        ∷ codes "refused,3,request: E1 UnknownAccount at field 2\n"
        ∷ codes "X,FA,3\ndone,4\n"
        ∷ codes "R,X,D1,AA,3600,13,0,0,0,0,3600\nT,X,D1,3600\ndone,5\n" ∷ []) }
{}

// A rejected request changes nothing and has a number.
fn refusals()
    ensures { session_of one_future (codes "X,FA,60000\n") (asking (codes "FILL,X,FA,1,FZ,0,FY,1") ∷ asking (codes "TRY,BUY,X,FA,1,FZ,1")
        ∷ too_long ∷ asking (codes "FILL,X,FA,1,FA,40000") ∷ asking_in_vain (codes "FILL,X,FA,1") ∷ asking (codes "POSITIONS") ∷ [])
        ≡ Ok (codes "OK,D1,1,1,0,0,0,0\ndone,0\n"
        ∷ codes "refused,1,request: B1 UnknownContract at field 5\n"
        ∷ codes "refused,2,request: B1 UnknownContract at field 6\n"
        ∷ codes "refused,3,request: X1 LineTooLong at field 0\n"
        ∷ codes "refused,4,request: B2 NetOutOfRange at field 3\n"
        ∷ codes "refused,5,memory\n"
        ∷ codes "X,FA,60000\ndone,6\n" ∷ []) }
{}
