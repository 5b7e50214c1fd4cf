//! Numbers of JSON, from their texts.

ghost use Rattle.std.specs.Prelude.{◌≡◌, true, false, option_map};
ghost use Rattle.serde_json.specs.Read.{number_from, number_of};
ghost use Rattle.serde_json.specs.View.{number_view};

use fast_float::Numeral;
use serde_json::Number;

/// The number of a text that JSON's grammar takes for one, if a float or 64 bits hold it. O(n) for n bytes.
#[tactic(auto, unfolding(serde_json::specs::Read::number_of))]
pub(crate) fn number_of(text: &str) -> Option<Number>
    ensures { option_map number_view result ≡ number_of text.now }
{
    let bytes = text.as_bytes();
    match bytes.strip_prefix(b"-") {
        Some(digits) => number_below(&Numeral::scan(digits)),
        None => number_above(&Numeral::scan(bytes)),
    }
}

// The number of a numeral with no sign.
fn number_above(numeral: &Numeral<'_>) -> Option<Number>
    ensures { option_map number_view result ≡ number_from false numeral.now }
{
    match numeral.to_u64() {
        Some(whole) => Some(Number::from(whole)),
        None => Number::from_f64(numeral.to_float(false)),
    }
}

// The number of a numeral behind a minus sign. That of `-0` is a float.
fn number_below(numeral: &Numeral<'_>) -> Option<Number>
    ensures { option_map number_view result ≡ number_from true numeral.now }
{
    match numeral.to_i64(true) {
        Some(whole) if whole < 0 => Some(Number::from(whole)),
        _ => Number::from_f64(numeral.to_float(true)),
    }
}
