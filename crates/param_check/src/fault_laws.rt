//! Lemmas on lists of all faults, in the terms of the methodology. Each is the contract of a function with an empty
//! body.
ghost use Rattle.std.specs.Prelude.{◌≡◌, ◌↔◌, ◌++◌, ◌∷◌, ℕ, Bool, List, [], None, Some, Ok, Err};
ghost use Rattle.std.specs.Prelude.{if◌then◌else◌, map, Contains};
ghost use Rattle.std.specs.List.{AllByRecursion};
ghost use Rattle.binding.specs.Binding.{all_unfit, all_unfit_by, bind_faults, bindings_of, is_unknown, known_records};
ghost use Rattle.param_check.specs.CheckFaults.{check_faults, checked};
ghost use Rattle.param_check.specs.FaultLaws.{bind_number, bind_record, check_number, check_record, known_numbers, renumbered};
ghost use Rattle.param_check.specs.FaultLaws.{AreInOrder, ComesBefore};
ghost use Rattle.binding.specs.declared.faults.BindFault.TheVariants as bind;
ghost use Rattle.binding.specs.declared.faults.BindFault.{BindFault};
ghost use Rattle.param_check.specs.declared.faults.CheckFault.{CheckFault};
ghost use Rattle.span_tables.specs.Laws.{IsFaultOfSome, IsStrictlyRisingBy};
ghost use Rattle.span_tables.specs.Net.{portfolios_of};
ghost use Rattle.span_tables.specs.Rules.{all_breaking};
ghost use Rattle.span_tables.specs.Tables.{tables_of};
ghost use Rattle.span_tables.specs.declared.records.Contract.{Contract};
ghost use Rattle.span_tables.specs.declared.records.PositionRecord.{PositionRecord};
ghost use Rattle.span_tables.specs.declared.records.Record.{Record};

/// The list of all faults of a parameter file's records is empty exactly if the records are accepted. Otherwise they
/// are rejected with the first fault of the list.
pub fn check_tells_its_fault_first()
    ensures accepted { (all : List Record) → (check_faults all ≡ []) ↔ (checked all ≡ Ok (tables_of all)) }
    ensures refused { (all : List Record) (y : CheckFault) (rest : List CheckFault) → check_faults all ≡ y ∷ rest
        → checked all ≡ Err y }
{}

/// The list of all faults of positions is empty exactly if they are accepted. Otherwise they are rejected with the
/// first fault of the list.
pub fn binding_tells_its_fault_first()
    ensures accepted { (contracts : List Contract) (all : List PositionRecord) → (bind_faults contracts all ≡ [])
        ↔ (bindings_of contracts all ≡ Ok (portfolios_of contracts all)) }
    ensures refused { (contracts : List Contract) (all : List PositionRecord) (y : BindFault) (rest : List BindFault)
        → bind_faults contracts all ≡ y ∷ rest → bindings_of contracts all ≡ Err y }
{}

/// For each rule, every record that breaks it is reported, and every reported record breaks it.
pub fn each_record_that_breaks_a_rule_is_told()
    ensures rules { (fault : ℕ → CheckFault) (breaks : List Record → Record → Bool) (all : List Record) (y : CheckFault)
        → IsFaultOfSome (λ earlier r. if breaks earlier r then Some fault else None) [] all y
        → Contains (all_breaking fault breaks all) y }
    ensures no_other { (fault : ℕ → CheckFault) (breaks : List Record → Record → Bool) (all : List Record)
        → AllByRecursion (IsFaultOfSome (λ earlier r. if breaks earlier r then Some fault else None) [] all)
        (all_breaking fault breaks all) }
    ensures positions { (fault : ℕ → List ℕ → BindFault) (unfit : List PositionRecord → PositionRecord → Bool)
        (all : List PositionRecord) (y : BindFault)
        → IsFaultOfSome (λ earlier p. if unfit earlier p then Some (λ at. fault at p.account) else None) [] all y
        → Contains (all_unfit fault unfit all) y }
    ensures no_other_position { (fault : ℕ → List ℕ → BindFault) (unfit : List PositionRecord → PositionRecord → Bool)
        (all : List PositionRecord)
        → AllByRecursion (IsFaultOfSome (λ earlier p. if unfit earlier p then Some (λ at. fault at p.account) else None) [] all)
        (all_unfit fault unfit all) }
{}

/// For each rule, no record is reported twice: the reported record numbers are strictly rising.
pub fn no_record_is_told_twice_of_a_rule()
    ensures rules { (breaks : List Record → Record → Bool) (all : List Record)
        → IsStrictlyRisingBy (λ at. at) (all_breaking (λ at. at) breaks all) }
    ensures positions { (unfit : List PositionRecord → PositionRecord → Bool) (all : List PositionRecord)
        → IsStrictlyRisingBy (λ at. at) (all_unfit_by (λ p. p.account) (λ at name. at) unfit all) }
{}

/// Faults are ordered by rule, and for one rule by record. So no fault is reported twice.
pub fn faults_are_told_in_order()
    ensures rules { (all : List Record) → AreInOrder (ComesBefore check_number check_record) (check_faults all) }
    ensures positions { (contracts : List Contract) (all : List PositionRecord)
        → AreInOrder (ComesBefore bind_number bind_record) (bind_faults contracts all) }
{}

/// Faults of nets and holdings are the faults of the records of known contracts by themselves, with the record numbers
/// of the file.
pub fn records_of_unknown_contracts_count_in_no_net()
    ensures { (contracts : List Contract) (all : List PositionRecord) → bind_faults contracts all
        ≡ all_unfit bind.UnknownContract (λ earlier p. is_unknown contracts p) all
        ++ map (renumbered (known_numbers contracts all)) (bind_faults contracts (known_records contracts all)) }
{}
