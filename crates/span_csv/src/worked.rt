//! The results of reading small files, computed by the definitions.
#![tactic(auto, unfolding(crate::specs::near::OnLiterals::reading_on_literals))]

ghost use Rattle.std.specs.List.{repeat};
ghost use Rattle.std.specs.Prelude.{◌≡◌, [], ◌∷◌, ◌++◌, Err, Ok, codes, neg_ℤ, pos};
ghost use Rattle.span_csv.specs.ParamFaults.{faults_in, param_faults, params_of};
ghost use Rattle.span_csv.specs.OrderFaults.{orders_of};
ghost use Rattle.span_csv.specs.PositionFaults.{position_faults, positions_of};
ghost use Rattle.span_csv.specs.Records.{records_of};
ghost use Rattle.span_csv.specs.declared.faults.OrderFault.TheVariants as order;
ghost use Rattle.span_csv.specs.declared.faults.ParamFault.TheVariants as param;
ghost use Rattle.span_csv.specs.declared.faults.PositionFault.TheVariants as position;
ghost use Rattle.span_tables.specs.Profiles.{no_extras};
ghost use Rattle.span_tables.specs.near.Samples.{contract, value_set};
ghost use Rattle.span_tables.specs.declared.records.ProductKind.TheVariants as product;
ghost use Rattle.span_tables.specs.declared.records.Record.TheVariants as record_of;

// A comma between quotes belongs to the field, and two quotes inside quotes are one. A carriage return ends a record by
// itself. A byte order mark is not part of the first field.
fn records()
    ensures quotes { records_of (codes "\"A,\"\"B\",1\n") ≡ (codes "A,\"B" ∷ codes "1" ∷ []) ∷ [] }
    ensures lone_carriage_return { records_of (codes "X,1\rY,2\r\n")
        ≡ (codes "X" ∷ codes "1" ∷ []) ∷ (codes "Y" ∷ codes "2" ∷ []) ∷ [] }
    ensures byte_order_mark { records_of (239 ∷ 187 ∷ 191 ∷ codes "X\n") ≡ (codes "X" ∷ []) ∷ [] }
{}

// For each faulty record its lowest-numbered fault is reported, whatever other records have. Records without a fault
// are not reported.
fn all_faults_of_parameters()
    ensures several { param_faults (codes "SET,d1,3,USD\nSPOT,AA,202501,0,0\nTIERS\nSET,D1,1,USD\nTIER,aa,?\nTIER,aa,?,1,1\nSPOT,A,1,0,?\n")
        ≡ param.BadName 1 ∷ param.UnknownKind 3 ∷ param.SecondSet 4 ∷ param.FieldCount 5 ∷ param.BadName 6 ∷ param.BadNumber 7 ∷ [] }
    ensures no_set { param_faults (codes "COMMODITY,AA,0,SUM\nSET,D1,1,USD\nCOMMODITY,AA,0,SUM\n")
        ≡ param.NoSet 1 ∷ param.SecondSet 2 ∷ [] }
{}

// A first record that is a SET gives its version, if the field is a version, even if the record has a fault. There are
// two versions.
fn version_of_a_faulty_set()
    ensures third { param_faults (codes "SET,D2,3,USD\n") ≡ param.OutOfRange 1 ∷ [] }
    ensures name { param_faults (codes "SET,d2,2,USD\nCONTRACT,CA,AA,C,202512,1,1,0,0,0,0,0,0,0,0,0,0,0,0,0,0,0,0\n")
        ≡ param.BadName 1 ∷ param.FieldCount 2 ∷ [] }
{}

// Among the SPOT records of one commodity without a lower-numbered fault, exactly the 17th is reported as one too many.
fn one_spot_month_too_many()
    ensures { faults_in ((codes "SET" ∷ codes "D1" ∷ codes "1" ∷ codes "USD" ∷ [])
        ∷ repeat 9 ((codes "SPOT" ∷ codes "AA" ∷ codes "202512" ∷ codes "0" ∷ codes "0" ∷ []) ∷ [])
        ++ (codes "SPOT" ∷ codes "AA" ∷ codes "202513" ∷ codes "0" ∷ codes "0" ∷ [])
        ∷ repeat 9 ((codes "SPOT" ∷ codes "AA" ∷ codes "202512" ∷ codes "0" ∷ codes "0" ∷ []) ∷ []))
        ≡ param.OutOfRange 11 ∷ param.TooMany 19 ∷ [] }
{}

// Under version 2 a contract has an option value after its risk array.
fn contract_of_the_second_version()
    ensures { params_of (codes "SET,D2,2,USD\nCONTRACT,CA,AA,C,202512,1,1,-9,8,7,7,7,7,7,7,7,7,7,7,7,7,7,7,120\n") ≡ Ok
        (value_set (codes "D2") ∷ record_of.Contract (record (contract product.Call (codes "CA") (codes "AA") 202512
        (neg_ℤ (pos 9) ∷ pos 8 ∷ repeat 14 (pos 7 ∷ []))) { extras = record no_extras { option_value = 120 } }) ∷ []) }
{}

// For each faulty record its lowest-numbered fault is reported. Records without a fault are not reported.
fn all_faults_of_positions()
    ensures { position_faults (codes "X,FA,1\nx,FA,?\nX,FA,?,\nX,fa,1\nX,FA,?\nX,FA,1000001\nX,FA,1\n")
        ≡ position.BadName 2 ∷ position.FieldCount 3 ∷ position.BadName 4 ∷ position.BadNumber 5 ∷ position.OutOfRange 6 ∷ [] }
{}

// Accounts and contracts as they appear in their fields, and a negative quantity.
fn two_positions()
    ensures { positions_of (codes "Y,FA,-3\nX,FB,1000000\n") ≡ Ok
        (record { account = codes "Y"; contract = codes "FA"; quantity = neg_ℤ (pos 3) }
        ∷ record { account = codes "X"; contract = codes "FB"; quantity = pos 1000000 } ∷ []) }
{}

// An order that recurs after another order of its account, and one of a second account.
fn orders()
    ensures recurs { orders_of (codes "N,Y,FA,-3\nM,Y,FB,1000000\nN,Y,FA,5\n") ≡ Ok
        (record { order = codes "N"; account = codes "Y"; contract = codes "FA"; quantity = neg_ℤ (pos 3) }
        ∷ record { order = codes "M"; account = codes "Y"; contract = codes "FB"; quantity = pos 1000000 }
        ∷ record { order = codes "N"; account = codes "Y"; contract = codes "FA"; quantity = pos 5 } ∷ []) }
    ensures second { orders_of (codes "N,X,FA,1\nM,Y,FA,1\nN,Y,FB,1\nM\n") ≡ Err (order.SecondAccount 3) }
{}
