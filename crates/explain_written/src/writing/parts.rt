// Parts that are bound.
ghost use Rattle.std.specs.Prelude.{◌≡◌};

use crate::place::Place;
use crate::settled::Part;
use crate::writer::Writer;
use crate::writing::{write_binding, write_block};
use raml_syntax::Expr;

/// Binds the parts of a value, which stand at `place`, in their order, and goes on behind. Names that others follow get new
/// numbers, since what follows is not to see them.
#[cycle(writing)]
pub fn write_parts<'s, 'a>(
    out: &mut Writer,
    place: Place<'s, 'a>,
    behind: Place<'s, 'a>,
    parts: &[Part<'a>],
    body: &'a Expr,
)
    requires { place.depth ≡ behind.depth }
{
    match parts {
        [] => write_block(out, behind, body),
        [part, rest @ ..] => {
            let number = if rest.is_empty() {
                behind.number
            } else {
                out.new_number()
            };
            write_binding(out, place, number, part.binder, part.value, part.ty);
            let names = behind.names.with_number(&part.binder.name, number);
            let behind = Place {
                names: &names,
                ..behind
            };
            write_parts(out, place, behind, rest, body);
        }
    }
}
