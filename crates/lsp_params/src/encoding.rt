// How columns are counted.
ghost use Rattle.std.specs.Prelude.{◌≡◌, map, Some, option_map};
ghost use Rattle.serde_json.specs.Find.{as_str};
ghost use Rattle.serde_json.specs.View.{view};
ghost use Rattle.lsp_params.specs.Agreed.{is_utf8, offers_utf8, best_of, offered, agreed};

use crate::json::list_in;
use lsp_positions::Encoding;
use serde_json::Value;

/// The encoding of columns: UTF-8 where the client offers it, and else UTF-16.
pub fn agreed(params: Option<&Value>) -> Encoding
    ensures { result ≡ agreed (option_map (λ params. view params.now) params.entry) }
{
    match params {
        Some(params) => best_of(offered(params)),
        None => Encoding::Utf16,
    }
}

// The encodings that a client offers.
fn offered(params: &Value) -> Option<&[Value]>
    ensures { option_map (λ items. map view items.now) result ≡ offered (view params.now) }
{
    let general = params.get("capabilities")?.get("general")?;
    list_in(general, "positionEncodings")
}

fn best_of(encodings: Option<&[Value]>) -> Encoding
    ensures { result ≡ best_of (option_map (λ items. map view items.now) encodings.entry) }
{
    match encodings {
        Some(encodings) => best_among(encodings),
        None => Encoding::Utf16,
    }
}

fn best_among(encodings: &[Value]) -> Encoding
    ensures { result ≡ best_of (Some (map view encodings.now)) }
{
    if offers_utf8(encodings) {
        Encoding::Utf8
    } else {
        Encoding::Utf16
    }
}

// Whether UTF-8 is among them.
fn offers_utf8(encodings: &[Value]) -> bool
    ensures { result ≡ offers_utf8 (map view encodings.now) }
{
    for encoding in encodings {
        if is_utf8(encoding) {
            return true;
        }
    }
    false
}

fn is_utf8(encoding: &Value) -> bool
    ensures { result ≡ is_utf8 (as_str (view encoding.now)) }
{
    match encoding.as_str() {
        Some(name) => name == "utf-8",
        None => false,
    }
}
