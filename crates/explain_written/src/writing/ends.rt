// The ends of expressions.
ghost use Rattle.std.specs.Prelude.{◌≡◌};

use crate::place::{Apart, Place, Rest};
use crate::settled::{Settled, settle};
use crate::writer::Writer;
use crate::writing::operands::write_any;
use crate::writing::parts::write_parts;
use crate::writing::taken::write_taken;
use crate::writing::write_block;
use raml_syntax::Expr;

/// Writes what is done with the value at an end.
#[cycle(writing)]
pub fn write_end<'s, 'a>(out: &mut Writer, place: Place<'s, 'a>, e: &'a Expr) {
    match place.rest {
        Rest::Whole => write_any(out, place, e),
        Rest::Apart {
            by,
            callee,
            names,
            number,
            ty,
            behind,
        } => {
            let behind = Place {
                callee,
                names,
                number,
                ty,
                rest: *behind,
                ..place
            };
            write_settled(out, place, behind, by, e);
        }
    }
}

/// Writes what takes a value apart, and goes on at once where the value is built here.
#[cycle(writing)]
fn write_settled<'s, 'a>(
    out: &mut Writer,
    place: Place<'s, 'a>,
    behind: Place<'s, 'a>,
    by: Apart<'a>,
    e: &'a Expr,
)
    requires { place.depth ≡ behind.depth }
{
    match settle(by, place.ty, e) {
        Settled::No => write_taken(out, place, behind, by, e),
        Settled::Empty(body) => write_block(out, behind, body),
        Settled::One(part, body) => write_parts(out, place, behind, &[part], body),
        Settled::Two(one, two, body) => write_parts(out, place, behind, &[one, two], body),
        Settled::Three(one, two, three, body) => {
            write_parts(out, place, behind, &[one, two, three], body);
        }
    }
}
