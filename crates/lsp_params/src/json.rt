// Members of JSON.
ghost use Rattle.std.specs.Prelude.{◌≡◌, map, option_map};
ghost use Rattle.serde_json.specs.View.{view};
ghost use Rattle.lsp_params.specs.Json as spec;
ghost use Rattle.lsp_params.specs.Json.{natural_in, position_of, range_of};

use lsp_documents::Range;
use lsp_positions::Position;
use serde_json::Value;

/// The text of a member.
pub fn text_in<'a>(value: &'a Value, key: &str) -> Option<&'a str>
    ensures { option_map (λ text. text.now) result ≡ spec.text_in key.now (view value.now) }
{
    value.get(key)?.as_str()
}

/// The number of a member.
pub fn integer_in(value: &Value, key: &str) -> Option<i64>
    ensures { result ≡ spec.integer_in key.now (view value.now) }
{
    value.get(key)?.as_i64()
}

/// The truth of a member.
pub fn truth_in(value: &Value, key: &str) -> Option<bool>
    ensures { result ≡ spec.truth_in key.now (view value.now) }
{
    value.get(key)?.as_bool()
}

/// The list of a member.
pub fn list_in<'a>(value: &'a Value, key: &str) -> Option<&'a [Value]>
    ensures { option_map (λ items. map view items.now) result ≡ spec.list_in key.now (view value.now) }
{
    Some(value.get(key)?.as_array()?.as_slice())
}

/// The position of a member.
pub fn position_in(value: &Value, key: &str) -> Option<Position>
    ensures { result ≡ spec.position_in key.now (view value.now) }
{
    position_of(value.get(key)?)
}

/// The range of a member.
pub fn range_in(value: &Value, key: &str) -> Option<Range>
    ensures { result ≡ spec.range_in key.now (view value.now) }
{
    range_of(value.get(key)?)
}

/// The range that a value is.
pub fn range_of(value: &Value) -> Option<Range>
    ensures { result ≡ range_of (view value.now) }
{
    let start = position_in(value, "start")?;
    let end = position_in(value, "end")?;
    Some(Range { start, end })
}

fn position_of(value: &Value) -> Option<Position>
    ensures { result ≡ position_of (view value.now) }
{
    let line = natural_in(value, "line")?;
    let character = natural_in(value, "character")?;
    Some(Position { line, character })
}

fn natural_in(value: &Value, key: &str) -> Option<usize>
    ensures { result ≡ natural_in key.now (view value.now) }
{
    let number = value.get(key)?.as_u64()?;
    Some(number as usize)
}
