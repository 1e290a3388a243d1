//! Requests of a session, one on each line.
ghost use Rattle.std.specs.Prelude.{◌≡◌, ◌<◌, ◌≤◌, ◌^◌, ⊤, IfOk, MatchBool, MatchOption, MatchResult, Ok, Err, None, Some};
ghost use Rattle.std.specs.Prelude.{drop, false, length, pos, true, unwrap_or};
ghost use Rattle.session.specs.Requests.{asked_by, asked_for, fields_of, file_request, form_fault, has_trades, is_file_name};
ghost use Rattle.session.specs.Requests.{is_memory, is_quantity, is_quantity_field, may_have, names_of, request_by, request_of};
ghost use Rattle.session.specs.Requests.{AreTradable, IsTradable, request_with, texts_of, trades_of, word_named};
ghost use Rattle.session.specs.near.FieldTests.{AreTrades, fails, field_failing};
ghost use Rattle.span_csv.specs.Records.{text_at};
ghost use Rattle.span_money.specs.Numbers.{whole_number};
ghost use Rattle.span_tables.specs.Names.{is_name};

use crate::faults::RequestFault;
use binding::trades::Trade;
use desks::desk::MAX_LINE;
use memchr::memchr;
use span_money::texts::parse_whole;
use span_tables::limits::MAX_QUANTITY;
use span_tables::name::{Name, is_name};
use std::alloc::{AllocError, Global};
use std::str;

/// The maximum number of pairs of contract and quantity in a request.
pub const MAX_TRADES: usize = 64;

/// A request of a session.
#[derive(Drop)]
pub enum Request<'a> {
    /// The statement of all accounts.
    Margin,
    /// The statement of one account.
    MarginOf {
        account: Name,
    },
    /// The explanation of one account.
    Explain {
        account: Name,
    },
    /// The change that an order would make to the margin of an account.
    Try {
        order: Name,
        account: Name,
        trades: Vec<Trade>,
    },
    /// Trades that were done for an account.
    Fill {
        account: Name,
        trades: Vec<Trade>,
    },
    /// Another parameter file.
    Set {
        file: &'a str,
    },
    /// The positions of all accounts.
    Positions,
}

/// The first field of a request, which is its name.
#[derive(Clone, Copy, Debug, PartialEq, Eq)]
pub enum Word {
    Margin,
    Explain,
    Try,
    Fill,
    Set,
    Positions,
}

// The word that a field spells.
fn word_named(field: &[u8]) -> Option<Word>
    ensures { result ≡ word_named field.now }
{
    if field == b"MARGIN".as_slice() {
        Some(Word::Margin)
    } else if field == b"EXPLAIN".as_slice() {
        Some(Word::Explain)
    } else if field == b"TRY".as_slice() {
        Some(Word::Try)
    } else if field == b"FILL".as_slice() {
        Some(Word::Fill)
    } else if field == b"SET".as_slice() {
        Some(Word::Set)
    } else if field == b"POSITIONS".as_slice() {
        Some(Word::Positions)
    } else {
        None
    }
}

// The word that the first field spells.
fn first_word(fields: &[&[u8]]) -> Option<Word>
    requires { 0 < length fields.now }
    ensures { result ≡ word_named (text_at (texts_of fields.now) 0) }
{
    word_named(fields[0])
}

// Whether this number of fields is a word, `names` names, and at least one pair of contract and quantity, but not too
// many.
fn has_trades(names: usize, count: usize) -> bool
    requires { names ≤ 2 }
    ensures { result ≡ has_trades names count }
{
    names + 1 < count && count <= names + 1 + 2 * MAX_TRADES && (count - (names + 1)) % 2 == 0
}

// Whether the field with this number, from 1, is a quantity, if this many names follow the word.
fn is_quantity_field(names: usize, number: usize) -> bool
    requires { names ≤ 2 }
    ensures { result ≡ is_quantity_field names number }
{
    names + 1 < number && (number - (names + 1)) % 2 == 0
}

impl Word {
    // The number of names between the word and the pairs of contract and quantity.
    fn names(self) -> usize
        ensures names { result ≡ names_of self }
        ensures few { result ≤ 2 }
    {
        match self {
            Word::Margin | Word::Explain | Word::Fill => 1,
            Word::Try => 2,
            Word::Set | Word::Positions => 0,
        }
    }

    // Whether a request may have this number of fields. The fields of a SET are checked with its file name.
    fn may_have(self, count: usize) -> bool
        ensures { result ≡ may_have self count }
    {
        match self {
            Word::Margin => count == 1 || count == 2,
            Word::Explain => count == 2,
            Word::Try | Word::Fill => has_trades(self.names(), count),
            Word::Set => false,
            Word::Positions => count == 1,
        }
    }
}

/// A test of the fields of a request.
#[derive(Clone, Copy)]
pub enum FieldTest {
    Name,
    Number,
    Range,
}

// Whether a text is not a whole number, or a quantity in range.
fn is_in_range(text: &[u8]) -> bool
    ensures { result ≡ is_quantity (unwrap_or (whole_number text.now) (pos 0)) }
{
    match parse_whole(text) {
        Some(quantity) => quantity.unsigned_abs() <= u64::from(MAX_QUANTITY),
        None => true,
    }
}

impl FieldTest {
    // Whether the field with this number fails.
    fn fails(self, word: Word, number: usize, text: &[u8]) -> bool
        ensures { result ≡ fails self word number text.now }
    {
        let is_quantity = is_quantity_field(word.names(), number);
        match self {
            FieldTest::Name => !is_quantity && !is_name(text),
            FieldTest::Number => is_quantity && parse_whole(text).is_none(),
            FieldTest::Range => is_quantity && !is_in_range(text),
        }
    }

    // The number of the first field after the word that fails.
    fn first(self, word: Word, fields: &[&[u8]]) -> Option<usize>
        requires { length fields.now < 2 ^ 63 }
        ensures { result ≡ field_failing self word (texts_of fields.now) }
    {
        for i in 1..fields.len() {
            if self.fails(word, i + 1, fields[i]) {
                return Some(i + 1);
            }
        }
        None
    }
}

// The fault of the fields of a request.
fn form_fault(word: Word, fields: &[&[u8]]) -> Option<RequestFault>
    requires { length fields.now < 2 ^ 63 }
    ensures { result ≡ form_fault word (texts_of fields.now) }
{
    if let Some(field) = FieldTest::Name.first(word, fields) {
        return Some(RequestFault::BadName { field });
    }
    if let Some(field) = FieldTest::Number.first(word, fields) {
        return Some(RequestFault::BadNumber { field });
    }
    if let Some(field) = FieldTest::Range.first(word, fields) {
        return Some(RequestFault::OutOfRange { field });
    }
    None
}

// The trade with a contract and a quantity.
fn trade_of(contract: &[u8], quantity: &[u8]) -> Trade
    requires contract { is_name contract.now ≡ true }
    requires quantity { is_quantity (unwrap_or (whole_number quantity.now) (pos 0)) ≡ true }
    ensures { result ≡ record { contract = contract.now; quantity = unwrap_or (whole_number quantity.now) (pos 0) } }
{
    Trade {
        contract: Name::of(contract),
        quantity: parse_whole(quantity).unwrap_or(0) as i32,
    }
}

// The trades in fields without a fault.
fn trades_of(alloc: Global, fields: &[&[u8]]) -> Result<Vec<Trade>, AllocError>
    requires trades { AreTrades (texts_of fields.now) }
    requires some { 2 ≤ length fields.now }
    ensures value { IfOk result (λ trades. trades.items ≡ trades_of (texts_of fields.now)) }
    ensures tradable { IfOk result (λ trades. AreTradable trades.items) }
{
    let mut trades = Vec::with_capacity(alloc, fields.len() / 2)?;
    let mut left = fields;
    while let [contract, quantity, rest @ ..] = left {
        trades.push(trade_of(contract, quantity))?;
        left = rest;
    }
    Ok(trades)
}

// The request of fields without a fault.
fn request_for<'a>(
    alloc: Global,
    word: Word,
    fields: &[&'a [u8]],
) -> Result<Request<'a>, AllocError>
    requires count { may_have word (length fields.now) ≡ true }
    requires free { form_fault word (texts_of fields.now) ≡ None }
    ensures value { IfOk result (λ request. asked_by request ≡ asked_for word (texts_of fields.now)) }
    ensures tradable { IfOk result IsTradable }
{
    match (word, fields) {
        (Word::Margin, [_, account]) => Ok(Request::MarginOf {
            account: Name::of(account),
        }),
        (Word::Margin, _) => Ok(Request::Margin),
        (Word::Explain, [_, account]) => Ok(Request::Explain {
            account: Name::of(account),
        }),
        (Word::Try, [_, order, account, trades @ ..]) => Ok(Request::Try {
            order: Name::of(order),
            account: Name::of(account),
            trades: trades_of(alloc, trades)?,
        }),
        (Word::Fill, [_, account, trades @ ..]) => Ok(Request::Fill {
            account: Name::of(account),
            trades: trades_of(alloc, trades)?,
        }),
        _ => Ok(Request::Positions),
    }
}

// The bytes after the word SET and the comma that follows it.
fn behind_set(line: &[u8]) -> &[u8]
    ensures { result.now ≡ drop 4 line.now }
{
    if line.len() < 4 { &[] } else { &line[4..] }
}

// The file name that a text is, if it is one.
fn file_named(text: &[u8]) -> Option<&str>
    ensures { MatchOption result (is_file_name text.now ≡ false) (λ file. (file.now ≡ text.now) × (is_file_name text.now ≡ true)) }
{
    if text.is_empty() {
        return None;
    }
    match str::from_utf8(text) {
        Ok(file) => Some(file),
        Err(_) => None,
    }
}

// The request of a line whose word is SET.
fn file_request(line: &[u8], fields: usize) -> Result<Request<'_>, RequestFault>
    requires { length (fields_of line.now) ≡ fields }
    ensures value { MatchResult result (λ request. file_request line.now ≡ Ok (asked_by request)) (λ e. file_request line.now ≡ Err e) }
    ensures tradable { IfOk result IsTradable }
{
    if fields == 1 {
        return Err(RequestFault::FieldCount);
    }
    match file_named(behind_set(line)) {
        Some(file) => Ok(Request::Set { file }),
        None => Err(RequestFault::BadName { field: 2 }),
    }
}

// The fields of a line: the bytes between its commas.
fn fields_of(alloc: Global, line: &[u8]) -> Result<Vec<&[u8]>, AllocError>
    ensures { IfOk result (λ fields. texts_of fields.items ≡ fields_of line.now) }
{
    let mut fields = Vec::new(alloc);
    let mut left = line;
    while let Some(end) = memchr(b',', left) {
        fields.push(&left[..end])?;
        left = &left[end + 1..];
    }
    fields.push(left)?;
    Ok(fields)
}

// The request of the fields of a line whose word is not SET.
fn fields_request<'a>(
    alloc: Global,
    word: Word,
    fields: &[&'a [u8]],
) -> Result<Request<'a>, RequestFault>
    requires { length fields.now < 2 ^ 63 }
    ensures value { MatchResult result (λ request. request_by word (texts_of fields.now) ≡ Ok (asked_by request))
        (λ e. MatchBool (is_memory e) ⊤ (request_by word (texts_of fields.now) ≡ Err e)) }
    ensures tradable { IfOk result IsTradable }
{
    if !word.may_have(fields.len()) {
        return Err(RequestFault::FieldCount);
    }
    match form_fault(word, fields) {
        Some(fault) => Err(fault),
        None => Ok(request_for(alloc, word, fields)?),
    }
}

// The request of a line with this word and these fields.
fn word_request<'a>(
    alloc: Global,
    line: &'a [u8],
    word: Word,
    fields: &[&'a [u8]],
) -> Result<Request<'a>, RequestFault>
    requires fields { texts_of fields.now ≡ fields_of line.now }
    requires few { length fields.now < 2 ^ 63 }
    ensures value { MatchResult result (λ request. request_with (Some word) line.now ≡ Ok (asked_by request))
        (λ e. MatchBool (is_memory e) ⊤ (request_with (Some word) line.now ≡ Err e)) }
    ensures tradable { IfOk result IsTradable }
{
    match word {
        Word::Set => file_request(line, fields.len()),
        _ => fields_request(alloc, word, fields),
    }
}

/// Returns the request of a line, or its lowest-numbered fault.
#[tactic(auto, unfolding(crate::specs::Requests::request_of))]
pub fn read_request(alloc: Global, line: &[u8]) -> Result<Request<'_>, RequestFault>
    ensures value { MatchResult result (λ request. request_of line.now ≡ Ok (asked_by request))
        (λ e. MatchBool (is_memory e) ⊤ (request_of line.now ≡ Err e)) }
    ensures tradable { IfOk result IsTradable }
{
    if line.len() > MAX_LINE {
        return Err(RequestFault::LineTooLong);
    }
    let fields = fields_of(alloc, line)?;
    match first_word(&fields) {
        Some(word) => word_request(alloc, line, word, &fields),
        None => Err(RequestFault::UnknownRequest),
    }
}
