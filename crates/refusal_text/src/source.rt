// Why a source is refused.
use raml_parse::ParseFault;
use simple_types::TypeFault;

/// Why a source is refused.
#[derive(Drop)]
pub enum SourceFault {
    /// It spells no program: its first fault.
    Parse(ParseFault),
    /// The program that it spells is not typed: the first fault of its types.
    Type(TypeFault),
}
