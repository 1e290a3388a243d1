//! The words and letters of fields.
ghost use Rattle.std.specs.Prelude.{◌≡◌};
ghost use Rattle.reasons.specs.Reasons.{kind_letter, long_side, method_word};

use span_tables::records::{MinimumMethod, ProductKind};
use span_tables::sides::Direction;

// Returns the letter of a contract's type.
pub(crate) fn kind_letter(kind: ProductKind) -> &'static str
    ensures { result.now ≡ kind_letter kind }
{
    match kind {
        ProductKind::Future => "F",
        ProductKind::Call => "C",
        ProductKind::Put => "P",
    }
}

// Returns the side that is long in a direction.
pub(crate) fn long_side(direction: Direction) -> &'static str
    ensures { result.now ≡ long_side direction }
{
    match direction {
        Direction::ALong => "A",
        Direction::AShort => "B",
    }
}

// Returns the word of a counting method.
pub(crate) fn method_word(method: MinimumMethod) -> &'static str
    ensures { result.now ≡ method_word method }
{
    match method {
        MinimumMethod::Sum => "SUM",
        MinimumMethod::Max => "MAX",
    }
}
