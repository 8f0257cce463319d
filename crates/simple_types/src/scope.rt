// Scopes.
ghost use Rattle.std.specs.Prelude.{◌≡◌};
ghost use Rattle.simple_types.specs.Scope.{ids_of};
ghost use Rattle.simple_types.specs.Numbered.{id_at};

use crate::types::TypeId;
use raml_syntax::Name;

/// The variables at hand, the newest first.
#[derive(Clone, Copy)]
pub enum Scope<'s, 'a> {
    Empty,
    Bound {
        name: &'a Name,
        ty: TypeId,
        outer: &'s Scope<'s, 'a>,
    },
}

impl<'s, 'a> Scope<'s, 'a> {
    /// The type of the newest variable of this name.
    pub fn find(&self, wanted: &str) -> Option<TypeId>
        ensures { result ≡ id_at wanted.now (ids_of self.now) }
    {
        match self {
            Scope::Empty => None,
            Scope::Bound { name, ty, outer } => {
                if wanted == name.text() {
                    Some(*ty)
                } else {
                    outer.find(wanted)
                }
            }
        }
    }
}
