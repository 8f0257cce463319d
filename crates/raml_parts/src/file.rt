// Files of a store, within their limits.
ghost use Rattle.std.specs.Prelude.{◌≡◌, ◌≤◌, ℕ, IfOk, IfErr};
ghost use Rattle.raml_syntax.specs.Tree.{Text};
ghost use Rattle.refusals.specs.Line.{no_names};
ghost use Rattle.raml_promise.specs.Outside.{store_of};
ghost use Rattle.raml_promise.specs.Steps.{most_bytes};
ghost use Rattle.raml_parts.specs.Parts.{Before, IsShort, FileRefuses, Refuses};

use raml_io::{Store, StoreFault};
use refusal_text::Which;
use refusals::Refusal;
use std::alloc::Global;

// The limit of a file, in bytes.
pub fn most_bytes(which: Which) -> u64
    ensures { result ≡ most_bytes which }
{
    match which {
        Which::Program | Which::Prices | Which::Bounds | Which::Other => 1_048_576,
        Which::Data => 4_194_304,
        Which::Certificate => 16_777_216,
    }
}

/// The bytes of a file that is within its limit. What is told of counts is told of any from which they
/// have not fallen to those before this call.
pub fn read_file<S: Store>(
    alloc: Global,
    store: &mut S,
    name: &str,
    which: Which,
) -> Result<Vec<u8>, Refusal>
    ensures ok { (before : Text → ℕ) →
        IfOk result (λ bytes. IsShort (store_of (S.holds store.old) before (S.faults store.new)) which name.now bytes.items) }
    ensures err { (before : Text → ℕ) → Before before (S.faults store.old) →
        IfErr result (Refuses no_names (FileRefuses (store_of (S.holds store.old) before (S.faults store.new)) which name.now)) }
    ensures kept { S.holds store.new ≡ S.holds store.old }
    ensures later { (other : Text) → S.faults store.old other ≤ S.faults store.new other }
{
    match store.read(alloc, name, most_bytes(which) + 1) {
        Ok(bytes) => {
            if bytes.len() as u64 > most_bytes(which) {
                Err(Refusal::too_long(which))
            } else {
                Ok(bytes)
            }
        }
        Err(StoreFault::Failed) => Err(Refusal::unread(which)),
        Err(StoreFault::NoMemory) => Err(Refusal::no_memory()),
    }
}
