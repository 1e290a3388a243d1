//! Lemmas on a position file that is cut by account: the statements of the parts, joined, are the statement of the
//! whole. Each is the contract of a function with an empty body.
ghost use Rattle.span_csv.specs.Cuts.{BeginsWithNoMark, EndsInLineFeed, has_quote};
ghost use Rattle.span_csv.specs.PositionFaults.{positions_of};
ghost use Rattle.span_csv.specs.Records.{Fields, records_of, text_at};
ghost use Rattle.span_tables.specs.Names.{distinct};
ghost use Rattle.span_tables.specs.Net.{accounts_of, holdings_of, net_of};
ghost use Rattle.span_tables.specs.Tables.{AcceptedTables};
ghost use Rattle.span_tables.specs.declared.limits.TheConstants.{MAX_ACCOUNTS};
ghost use Rattle.span_tables.specs.declared.records.Contract.{Contract};
ghost use Rattle.span_tables.specs.declared.records.PositionRecord.{PositionRecord};
ghost use Rattle.parts.specs.Parts.{AreApart, AreFilesApart, ShareNoName, accounts_in, lines_of, positions_in};
ghost use Rattle.parts.specs.Parts.{records_joined, records_of_account};
ghost use Rattle.statement_text.specs.Statement.{accepted_of, statement_bound, statement_of};
ghost use Rattle.std.specs.Cmp.Lexicographic.{slice_cmp};
ghost use Rattle.std.specs.List.{concat};
ghost use Rattle.std.specs.List.Sorted.{IsStableByKey};
ghost use Rattle.std.specs.Ordering.{nat_cmp};
ghost use Rattle.std.specs.Prelude.{◌&&◌, ◌++◌, ◌+ℤ◌, ◌<◌, ◌≡◌, ◌≤◌, ◌∷◌, All, AllPairs, IsPermutation, IsSortedByKey, List, Ok};
ghost use Rattle.std.specs.Prelude.{[], bytes_eq, drop, false, flat_map, is_ok, length, map, pos, take, true, ℕ};

/// If two lists have no account in common, the statement of the joined list is the statement of the first list, then
/// the statement of the second. The joined list has a statement only if each of the two has one.
pub fn statements_of_parts_join()
    ensures joined { (t : AcceptedTables) (ps qs : List PositionRecord) (one other : List ℕ) → AreApart ps qs
        → statement_bound t ps ≡ Ok one → statement_bound t qs ≡ Ok other
        → statement_bound t (ps ++ qs) ≡ Ok (one ++ other) }
    ensures accepted { (t : AcceptedTables) (ps qs : List PositionRecord) (text : List ℕ) → AreApart ps qs
        → statement_bound t (ps ++ qs) ≡ Ok text
        → (one : List ℕ) × (other : List ℕ) × (statement_bound t ps ≡ Ok one) × (statement_bound t qs ≡ Ok other)
        × (text ≡ one ++ other) }
{}

/// The statements of two parts, joined, are the statement of a whole file under three conditions: the records of the
/// whole are the records of the first part and then of the second, the parts share no account, and the whole has no
/// more accounts than a file may have. The whole has a statement only if each part has one.
pub fn statements_of_files_join()
    ensures joined { (params whole first second one other : List ℕ)
        → records_of whole ≡ records_of first ++ records_of second → AreFilesApart first second
        → length (distinct (accounts_in (records_of whole))) ≤ MAX_ACCOUNTS
        → statement_of params first ≡ Ok one → statement_of params second ≡ Ok other
        → statement_of params whole ≡ Ok (one ++ other) }
    ensures accepted { (params whole first second text : List ℕ)
        → records_of whole ≡ records_of first ++ records_of second → AreFilesApart first second
        → statement_of params whole ≡ Ok text
        → (one : List ℕ) × (other : List ℕ) × (statement_of params first ≡ Ok one)
        × (statement_of params second ≡ Ok other) × (text ≡ one ++ other) }
{}

/// If a file is cut in two after a line feed, the statements of the parts, joined, are the statement of the file. The
/// parts have to share no account, and together have no more accounts than a file may have. The first part may have no
/// double quote, and the second may not begin with a byte order mark.
pub fn statements_of_cut_files_join()
    ensures joined { (params first second one other : List ℕ)
        → EndsInLineFeed first → has_quote first ≡ false → BeginsWithNoMark second → AreFilesApart first second
        → length (distinct (accounts_in (records_of (first ++ second)))) ≤ MAX_ACCOUNTS
        → statement_of params first ≡ Ok one → statement_of params second ≡ Ok other
        → statement_of params (first ++ second) ≡ Ok (one ++ other) }
    ensures accepted { (params first second text : List ℕ)
        → EndsInLineFeed first → has_quote first ≡ false → BeginsWithNoMark second → AreFilesApart first second
        → statement_of params (first ++ second) ≡ Ok text
        → (one : List ℕ) × (other : List ℕ) × (statement_of params first ≡ Ok one)
        × (statement_of params second ≡ Ok other) × (text ≡ one ++ other) }
{}

/// The holdings of an account depend only on its own records. Records of other accounts may be before, between or after
/// them, or left out.
pub fn an_account_goes_by_its_own_records()
    ensures { (contracts : List Contract) (ps qs : List PositionRecord) (account : List ℕ)
        → records_of_account ps account ≡ records_of_account qs account
        → holdings_of contracts ps account ≡ holdings_of contracts qs account }
{}

/// If no account has records in two of the lists, the statement of the joined list is the joined statements of the
/// lists. Their number and the number of accounts do not matter. The joined list has a statement only if each of the
/// lists has one.
pub fn statements_of_records_join()
    ensures joined { (t : AcceptedTables) (parts : List (List PositionRecord)) (texts : List (List ℕ)) → AllPairs AreApart parts
        → map (statement_bound t) parts ≡ map Ok texts
        → statement_bound t (records_joined parts) ≡ Ok (concat texts) }
    ensures accepted { (t : AcceptedTables) (parts : List (List PositionRecord)) (text : List ℕ) → AllPairs AreApart parts
        → statement_bound t (records_joined parts) ≡ Ok text
        → (texts : List (List ℕ)) × (map (statement_bound t) parts ≡ map Ok texts) × (text ≡ concat texts) }
{}

/// If no account is in two of the files, their statements, joined, are the statement of their joined records, for any
/// number of accounts. They are also the statement of a file with these records, if it has no more accounts than a file
/// may have. If each file can be read, the joined records have a statement only if each file has one.
pub fn statements_of_part_files_join()
    ensures joined { (params : List ℕ) (t : AcceptedTables) (files texts : List (List ℕ)) → accepted_of params ≡ Ok t
        → AllPairs AreFilesApart files → map (statement_of params) files ≡ map Ok texts
        → statement_bound t (flat_map positions_in files) ≡ Ok (concat texts) }
    ensures accepted { (params : List ℕ) (t : AcceptedTables) (files : List (List ℕ)) (text : List ℕ) → accepted_of params ≡ Ok t
        → AllPairs AreFilesApart files → All (λ file. is_ok (positions_of file) ≡ true) files
        → statement_bound t (flat_map positions_in files) ≡ Ok text
        → (texts : List (List ℕ)) × (map (statement_of params) files ≡ map Ok texts) × (text ≡ concat texts) }
    ensures whole { (params : List ℕ) (t : AcceptedTables) (whole : List ℕ) (files texts : List (List ℕ)) → accepted_of params ≡ Ok t
        → records_of whole ≡ flat_map records_of files → AllPairs AreFilesApart files
        → length (distinct (accounts_in (records_of whole))) ≤ MAX_ACCOUNTS
        → map (statement_of params) files ≡ map Ok texts
        → statement_of params whole ≡ Ok (concat texts) }
{}

/// Bytes without a double quote that are cut after line feeds have the records of the resulting files. None of the
/// files may begin with a byte order mark.
pub fn records_of_cut_files_join()
    ensures { (files : List (List ℕ)) → All EndsInLineFeed files → has_quote (concat files) ≡ false → All BeginsWithNoMark files
        → records_of (concat files) ≡ flat_map records_of files }
{}

/// The net of an account in a contract is the sum of the quantities in the records of that account and contract. Other
/// records do not contribute. So nets and holdings do not depend on the order of the records.
pub fn records_add_up_in_any_order()
    ensures one { (p : PositionRecord) → net_of (p ∷ []) p.account p.contract ≡ p.quantity }
    ensures other { (p : PositionRecord) (account contract : List ℕ)
        → (bytes_eq p.account account && bytes_eq p.contract contract) ≡ false → net_of (p ∷ []) account contract ≡ pos 0 }
    ensures added { (ps qs : List PositionRecord) (account contract : List ℕ)
        → net_of (ps ++ qs) account contract ≡ net_of ps account contract +ℤ net_of qs account contract }
    ensures net { (ps qs : List PositionRecord) (account contract : List ℕ) → IsPermutation ps qs
        → net_of ps account contract ≡ net_of qs account contract }
    ensures held { (contracts : List Contract) (ps qs : List PositionRecord) (account : List ℕ) → IsPermutation ps qs
        → holdings_of contracts ps account ≡ holdings_of contracts qs account }
{}

/// A stable sort by account keeps all records, and keeps the records of each account in their order. Records in any
/// other order, such as sorted ones, have the same accounts, and each account has the same lines. They have a statement
/// exactly if the original records have one. A statement consists of the lines of its accounts.
pub fn sorted_records_have_the_same_lines()
    ensures sorted { (ps sorted : List PositionRecord) → IsStableByKey (λ p. p.account) (slice_cmp nat_cmp) ps sorted
        → IsPermutation ps sorted }
    ensures stable { (ps sorted : List PositionRecord) (account : List ℕ)
        → IsStableByKey (λ p. p.account) (slice_cmp nat_cmp) ps sorted
        → records_of_account sorted account ≡ records_of_account ps account }
    ensures accounts { (ps qs : List PositionRecord) → IsPermutation ps qs → IsPermutation (accounts_of ps) (accounts_of qs) }
    ensures lines { (t : AcceptedTables) (ps qs : List PositionRecord) (account : List ℕ) → IsPermutation ps qs
        → lines_of t ps account ≡ lines_of t qs account }
    ensures accepted { (t : AcceptedTables) (ps qs : List PositionRecord) → IsPermutation ps qs
        → is_ok (statement_bound t ps) ≡ is_ok (statement_bound t qs) }
    ensures statement { (t : AcceptedTables) (ps : List PositionRecord) (text : List ℕ) → statement_bound t ps ≡ Ok text
        → text ≡ flat_map (lines_of t ps) (accounts_of ps) }
{}

/// A file with the records of another file in any order is accepted exactly if the other file is. Its statement has the
/// lines that its accounts have by the other file's records. A stable sort by account is one such order.
pub fn sorted_files_have_the_same_lines()
    ensures sorted { (one sorted : List ℕ) → IsStableByKey (λ r. text_at r 0) (slice_cmp nat_cmp) (records_of one) (records_of sorted)
        → IsPermutation (records_of one) (records_of sorted) }
    ensures accepted { (params one other : List ℕ) → IsPermutation (records_of one) (records_of other)
        → is_ok (statement_of params one) ≡ is_ok (statement_of params other) }
    ensures lines { (params : List ℕ) (t : AcceptedTables) (one other text : List ℕ) → accepted_of params ≡ Ok t
        → IsPermutation (records_of one) (records_of other) → statement_of params other ≡ Ok text
        → text ≡ flat_map (lines_of t (positions_in one)) (accounts_of (positions_in other)) }
{}

/// If records are sorted by account and cut at a change of the account, the two parts share no account. If no cut
/// between parts has an account on both sides, no account is in two of them.
pub fn sorted_records_are_cut_between_accounts()
    ensures cut { (ps qs : List PositionRecord) (p q : PositionRecord)
        → IsSortedByKey (λ x. x.account) (slice_cmp nat_cmp) (ps ++ p ∷ q ∷ qs) → bytes_eq p.account q.account ≡ false
        → AreApart (ps ++ p ∷ []) (q ∷ qs) }
    ensures all { (parts : List (List PositionRecord))
        → ((n : ℕ) → n < length parts → AreApart (records_joined (take n parts)) (records_joined (drop n parts)))
        → AllPairs AreApart parts }
{}

/// The same for the records of files. If they are sorted by account and cut at a change of the account, the two parts
/// share no account. If no cut between files has an account on both sides, no account is in two of them.
pub fn sorted_files_are_cut_between_accounts()
    ensures cut { (rs ss : List Fields) (r s : Fields) → IsSortedByKey (λ x. text_at x 0) (slice_cmp nat_cmp) (rs ++ r ∷ s ∷ ss)
        → bytes_eq (text_at r 0) (text_at s 0) ≡ false → ShareNoName (accounts_in (rs ++ r ∷ [])) (accounts_in (s ∷ ss)) }
    ensures all { (files : List (List ℕ)) → ((n : ℕ) → n < length files
        → ShareNoName (accounts_in (flat_map records_of (take n files))) (accounts_in (flat_map records_of (drop n files))))
        → AllPairs AreFilesApart files }
{}

/// Files that have the records of a whole file in any order, and no account in common, have the lines of the whole
/// file's accounts as their joined statements. Each account has its lines by the whole file's records and appears once.
/// The records need not be sorted, and the whole file may have any number of accounts.
pub fn sorted_parts_have_the_lines_of_the_whole()
    ensures { (params : List ℕ) (t : AcceptedTables) (whole : List ℕ) (files texts : List (List ℕ)) → accepted_of params ≡ Ok t
        → IsPermutation (records_of whole) (flat_map records_of files) → AllPairs AreFilesApart files
        → map (statement_of params) files ≡ map Ok texts
        → (accounts : List (List ℕ)) × IsPermutation (accounts_of (positions_in whole)) accounts
        × (concat texts ≡ flat_map (lines_of t (positions_in whole)) accounts) }
{}
