//! The requests of lines, computed by the definitions.
#![tactic(auto, unfolding(crate::specs::Requests::request_of))]

ghost use Rattle.std.specs.Prelude.{◌≡◌, [], ◌∷◌, Err, Ok, codes, neg_ℤ, pos, true};
ghost use Rattle.std.specs.Str.{is_utf8};
ghost use Rattle.session.specs.Requests.{Fill, MarginOf, Positions, Set, Try, request_of};
ghost use Rattle.session.specs.declared.faults.RequestFault.TheVariants as fault;

// Requests.
fn requests()
    ensures margin_of { request_of (codes "MARGIN,X") ≡ Ok (MarginOf (codes "X")) }
    ensures tried { request_of (codes "TRY,BUY,X,FA,2")
        ≡ Ok (Try (codes "BUY") (codes "X") (record { contract = codes "FA"; quantity = pos 2 } ∷ [])) }
    ensures filled { request_of (codes "FILL,X,FA,-3,FB,2")
        ≡ Ok (Fill (codes "X")
        (record { contract = codes "FA"; quantity = neg_ℤ (pos 3) } ∷ record { contract = codes "FB"; quantity = pos 2 } ∷ [])) }
    ensures positions { request_of (codes "POSITIONS") ≡ Ok Positions }
{}

// A file name may contain commas. (Whether it is UTF-8 is not computed here.)
fn files()
    ensures { is_utf8 (codes "next,1.csv") ≡ true → request_of (codes "SET,next,1.csv") ≡ Ok (Set (codes "next,1.csv")) }
{}

// The lowest-numbered fault, and the lowest field with this fault.
fn faults()
    ensures name { request_of (codes "TRY,BUY,X,FA,x,fb,1,fc,1") ≡ Err (fault.BadName 6) }
    ensures count { request_of (codes "FILL,x,FA") ≡ Err fault.FieldCount }
{}
