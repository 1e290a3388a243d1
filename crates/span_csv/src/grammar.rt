//! The kinds of records of a parameter file, and the forms of their fields.
ghost use Rattle.std.specs.Char.{is_ascii_uppercase};
ghost use Rattle.std.specs.List.{list_all, repeat};
ghost use Rattle.std.specs.Prelude.{◌≡◌, ◌≤◌, ◌<◌, ◌&&◌, ◌++◌, ◌==◌, ◌+◌, ◌-◌, ◌^◌, [], IfSome, drop, length};
ghost use Rattle.std.specs.Prelude.{replicate, slice_index_or};
ghost use Rattle.span_csv.specs.near.Grammar.{passes};
ghost use Rattle.span_csv.specs.Records.{all_have, contract_back, contract_forms, forms_of, has_number_form, has_word_form};
ghost use Rattle.span_csv.specs.Records.{kind_named, product_at, with_legs};

use crate::row::{Row, text_at};
use span_money::texts::{parse_decimal, parse_month, parse_whole};
use span_tables::limits::{
    MAX_ARRAY_VALUE, MAX_BASIS_POINTS, MAX_DELTA, MAX_OPTION_VALUE, MAX_PRIORITY, MAX_PROFILE,
    MAX_RATE, MAX_RATIO, MAX_SCALE, MAX_TIER_NUMBER, SCENARIOS,
};
use span_tables::name::is_name;
use span_tables::profiles::facts_of;
use span_tables::records::ProductKind;
use std::marker::Model;

/// The form of a field. A whole number and a decimal have their lowest and highest value, for a decimal in 10^-4.
#[derive(Clone, Copy)]
pub enum FieldForm {
    Name,
    Currency,
    Method,
    Product,
    Side,
    Whole(i64, i64),
    Decimal(i64, i64),
    Month,
}

/// The kinds of records in a parameter file.
#[derive(Clone, Copy)]
pub enum Kind {
    Set,
    Commodity,
    Contract,
    Tier,
    Intra,
    Spot,
    Inter,
}

/// The test of a field: `Word` tests the form of words, and `Number` the form of numbers.
#[derive(Clone, Copy)]
pub(crate) enum FieldTest {
    Word,
    Number,
}

// A version, which is the number of a profile. The bounds of this and the following numbers are inclusive.
const VERSION: FieldForm = FieldForm::Whole(1, MAX_PROFILE as i64);

const RATE: FieldForm = FieldForm::Whole(0, MAX_RATE as i64);

const TIER_NUMBER: FieldForm = FieldForm::Whole(1, MAX_TIER_NUMBER as i64);

const PRIORITY: FieldForm = FieldForm::Whole(1, MAX_PRIORITY as i64);

const BASIS_POINTS: FieldForm = FieldForm::Whole(0, MAX_BASIS_POINTS as i64);

const ARRAY_VALUE: FieldForm = FieldForm::Whole(-(MAX_ARRAY_VALUE as i64), MAX_ARRAY_VALUE as i64);

// The option value of a future.
const NO_VALUE: FieldForm = FieldForm::Whole(0, 0);
// The option value of an option.
const OPTION_VALUE: FieldForm = FieldForm::Whole(0, MAX_OPTION_VALUE as i64);

const DELTA: FieldForm = FieldForm::Decimal(-(MAX_DELTA as i64), MAX_DELTA as i64);

const SCALE: FieldForm = FieldForm::Decimal(1, MAX_SCALE as i64);

const RATIO: FieldForm = FieldForm::Decimal(1, MAX_RATIO as i64);

static SET_FIELDS: [FieldForm; 3] = [FieldForm::Name, VERSION, FieldForm::Currency];

static COMMODITY_FIELDS: [FieldForm; 3] = [FieldForm::Name, RATE, FieldForm::Method];

static CONTRACT_FRONT: [FieldForm; 6] = [
    FieldForm::Name,
    FieldForm::Name,
    FieldForm::Product,
    FieldForm::Month,
    DELTA,
    SCALE,
];

static ARRAY_VALUES: [FieldForm; SCENARIOS] = [ARRAY_VALUE; SCENARIOS];

// The fields after the risk array of a future and of an option, if options have a value.
static FUTURE_BACK: [FieldForm; 1] = [NO_VALUE];

static OPTION_BACK: [FieldForm; 1] = [OPTION_VALUE];

static TIER_FIELDS: [FieldForm; 4] = [
    FieldForm::Name,
    TIER_NUMBER,
    FieldForm::Month,
    FieldForm::Month,
];

static INTRA_FRONT: [FieldForm; 3] = [FieldForm::Name, PRIORITY, RATE];

static INTRA_LEGS: [[FieldForm; 3]; 4] = [[TIER_NUMBER, FieldForm::Side, RATIO]; 4];

static SPOT_FIELDS: [FieldForm; 4] = [FieldForm::Name, FieldForm::Month, RATE, RATE];

static INTER_FRONT: [FieldForm; 2] = [PRIORITY, BASIS_POINTS];

static INTER_LEGS: [[FieldForm; 3]; 4] = [[FieldForm::Name, FieldForm::Side, RATIO]; 4];

/// The forms of a record's fields after the first, in three parts.
#[derive(Drop)]
pub(crate) struct Layout {
    front: &'static [FieldForm],
    middle: &'static [FieldForm],
    back: &'static [FieldForm],
}

impl Model for Layout {
    ghost use Rattle.std.specs.Prelude.{List, length, ◌++◌, ◌+◌, ◌<◌, ◌^◌};
    ghost use Rattle.span_csv.specs.declared.grammar.FieldForm.{FieldForm};

    ghost Value = { List FieldForm };

    ghost view = { λ l. l.front.now ++ l.middle.now ++ l.back.now };

    ghost invariant = { λ l. length l.front.now + length l.middle.now + length l.back.now < 2 ^ 32 };
}

/// Returns the kind that a word names.
pub(crate) fn kind_named(word: &[u8]) -> Option<Kind>
    ensures { result ≡ kind_named word.now }
{
    if word == b"SET".as_slice() {
        Some(Kind::Set)
    } else if word == b"COMMODITY".as_slice() {
        Some(Kind::Commodity)
    } else if word == b"CONTRACT".as_slice() {
        Some(Kind::Contract)
    } else if word == b"TIER".as_slice() {
        Some(Kind::Tier)
    } else if word == b"INTRA".as_slice() {
        Some(Kind::Intra)
    } else if word == b"SPOT".as_slice() {
        Some(Kind::Spot)
    } else if word == b"INTER".as_slice() {
        Some(Kind::Inter)
    } else {
        None
    }
}

// Returns the kind of contract that a field names, or a put if it names none.
fn product_at(row: &Row, i: usize) -> ProductKind
    ensures { result ≡ product_at row.now i }
{
    match text_at(row, i) {
        b"F" => ProductKind::Future,
        b"C" => ProductKind::Call,
        _ => ProductKind::Put,
    }
}

// Returns a layout of the front forms and the forms of a number of legs.
fn with_times(
    front: &'static [FieldForm],
    legs: &'static [[FieldForm; 3]; 4],
    times: usize,
) -> Layout
    requires room { length front.now < 2 ^ 31 }
    requires few { times ≤ 4 }
    requires same { legs.now ≡ replicate 4 (slice_index_or legs.now 0 []) }
    ensures { result ≡ front.now ++ repeat times (slice_index_or legs.now 0 []) }
{
    Layout {
        front,
        middle: legs[..times].as_flattened(),
        back: &[],
    }
}

// Returns a layout of these forms only.
fn alone(forms: &'static [FieldForm]) -> Layout
    requires { length forms.now < 2 ^ 32 }
    ensures { result ≡ forms.now }
{
    Layout {
        front: forms,
        middle: &[],
        back: &[],
    }
}

// Returns the forms after the risk array of a CONTRACT: an option value under some profiles.
fn contract_back(profile: u8, product: ProductKind) -> &'static [FieldForm]
    ensures forms { result.now ≡ contract_back profile product }
    ensures few { length result.now ≤ 1 }
{
    if !facts_of(profile).options_have_value {
        return &[];
    }
    match product {
        ProductKind::Future => &FUTURE_BACK,
        ProductKind::Call | ProductKind::Put => &OPTION_BACK,
    }
}

fn contract_forms(profile: u8, product: ProductKind) -> Layout
    ensures { result ≡ contract_forms profile product }
{
    Layout {
        front: &CONTRACT_FRONT,
        middle: &ARRAY_VALUES,
        back: contract_back(profile, product),
    }
}

// Returns the layout of a spread's record with this number of fields after the first, if that makes 2 to 4 legs.
fn with_legs(
    front: &'static [FieldForm],
    legs: &'static [[FieldForm; 3]; 4],
    fields: usize,
) -> Option<Layout>
    requires room { length front.now < 2 ^ 31 }
    requires same { legs.now ≡ replicate 4 (slice_index_or legs.now 0 []) }
    ensures { result ≡ with_legs front.now (slice_index_or legs.now 0 []) fields }
{
    with_times(front, legs, 2)
        .exactly(fields)
        .or(with_times(front, legs, 3).exactly(fields))
        .or(with_times(front, legs, 4).exactly(fields))
}

// Returns whether the fields from an index on pass the tests of these forms, one field for each form.
fn all_from(test: FieldTest, forms: &[FieldForm], row: &Row, place: usize) -> bool
    requires room { place + length forms.now ≤ length row.now }
    requires small { place + length forms.now < 2 ^ 64 }
    ensures { result ≡ all_have (passes test) forms.now (drop place row.now) }
{
    for (i, form) in forms.iter().enumerate() {
        if !form.passes(test, text_at(row, place + i)) {
            return false;
        }
    }
    true
}

impl Layout {
    ghost use Rattle.std.specs.Prelude.{◌≡◌, ◌+◌, drop, length};
    ghost use Rattle.span_csv.specs.near.Grammar.{passes};
    ghost use Rattle.span_csv.specs.Records.{all_have, exactly};

    // Returns the number of forms in the layout.
    #[tactic(auto, using(crate::proofs::FormLemmas::layout_length))]
    fn len(&self) -> usize
        ensures { result ≡ length self.now }
    {
        self.front.len() + self.middle.len() + self.back.len()
    }

    // Returns the layout if a record has exactly this number of fields after the first.
    fn exactly(self, fields: usize) -> Option<Layout>
        ensures { result ≡ exactly self fields }
    {
        if fields == self.len() {
            Some(self)
        } else {
            None
        }
    }

    /// Returns whether each field after the first passes the test of its form.
    pub(crate) fn all_have(&self, test: FieldTest, row: &Row) -> bool
        requires { length row.now ≡ length self.now + 1 }
        ensures { result ≡ all_have (passes test) self.now (drop 1 row.now) }
    {
        let middle = 1 + self.front.len();
        let back = middle + self.middle.len();
        if !all_from(test, self.front, row, 1) {
            return false;
        }
        if !all_from(test, self.middle, row, middle) {
            return false;
        }
        all_from(test, self.back, row, back)
    }
}

impl Kind {
    /// Returns the forms of a record's fields after the first under a profile, if the kind may have that many fields.
    pub(crate) fn layout(self, profile: u8, row: &Row) -> Option<Layout>
        requires { 1 ≤ length row.now }
        ensures value { result ≡ forms_of self profile (product_at row.now 3) (length row.now - 1) }
        ensures count { IfSome result (λ forms. length row.now ≡ length forms + 1) }
    {
        let fields = row.len() - 1;
        match self {
            Kind::Set => alone(&SET_FIELDS).exactly(fields),
            Kind::Commodity => alone(&COMMODITY_FIELDS).exactly(fields),
            Kind::Contract => contract_forms(profile, product_at(row, 3)).exactly(fields),
            Kind::Tier => alone(&TIER_FIELDS).exactly(fields),
            Kind::Intra => with_legs(&INTRA_FRONT, &INTRA_LEGS, fields),
            Kind::Spot => alone(&SPOT_FIELDS).exactly(fields),
            Kind::Inter => with_legs(&INTER_FRONT, &INTER_LEGS, fields),
        }
    }
}

/// Returns whether a text is three letters from `A` to `Z`.
pub(crate) fn is_currency(text: &[u8]) -> bool
    ensures { result ≡ (length text.now == 3) && list_all is_ascii_uppercase text.now }
{
    text.len() == 3 && are_uppercase(text)
}

fn are_uppercase(text: &[u8]) -> bool
    ensures { result ≡ list_all is_ascii_uppercase text.now }
{
    text.iter().all(|byte| byte.is_ascii_uppercase())
}

impl FieldForm {
    fn has_word_form(self, text: &[u8]) -> bool
        ensures { result ≡ has_word_form self text.now }
    {
        match self {
            FieldForm::Name => is_name(text),
            FieldForm::Currency => is_currency(text),
            FieldForm::Method => matches!(text, b"SUM" | b"MAX"),
            FieldForm::Product => matches!(text, b"F" | b"C" | b"P"),
            FieldForm::Side => matches!(text, b"A" | b"B"),
            _ => true,
        }
    }

    fn has_number_form(self, text: &[u8]) -> bool
        ensures { result ≡ has_number_form self text.now }
    {
        match self {
            FieldForm::Whole(..) => parse_whole(text).is_some(),
            FieldForm::Decimal(..) => parse_decimal(text).is_some(),
            FieldForm::Month => parse_month(text).is_some(),
            _ => true,
        }
    }

    // Returns whether a field's text passes the test of its form.
    fn passes(self, test: FieldTest, text: &[u8]) -> bool
        ensures { result ≡ passes test self text.now }
    {
        match test {
            FieldTest::Word => self.has_word_form(text),
            FieldTest::Number => self.has_number_form(text),
        }
    }
}
