// The variables at hand.
ghost use Rattle.std.specs.Prelude.{◌≡◌};
ghost use Rattle.explain_rounds.specs.Classes as c;
ghost use Rattle.explain_rounds.specs.Twice as w;
ghost use Rattle.explain_rounds.specs.Read.{variables_in};
ghost use Rattle.explain_rounds.specs.Found.{place_in};

use crate::class::Class;
use raml_syntax::{Name, Pos};

/// The variables at hand, each with what it is, the newest outermost.
#[derive(Clone, Copy)]
pub enum Scope<'s, 'a> {
    Empty,
    Bound {
        at: Pos,
        name: &'a Name,
        class: Class,
        outer: &'s Scope<'s, 'a>,
    },
}

impl<'s, 'a> Scope<'s, 'a> {
    /// What the newest variable of this name is.
    pub fn class_at(&self, wanted: &str) -> Class
        ensures { result ≡ c.class_at wanted.now (variables_in self.now) }
    {
        match self {
            Scope::Empty => Class::Other,
            Scope::Bound {
                at: _,
                name,
                class,
                outer,
            } => {
                if wanted == name.text() {
                    *class
                } else {
                    outer.class_at(wanted)
                }
            }
        }
    }

    /// Where the name of the newest variable of this name stands, if it is a part.
    pub fn part_at(&self, wanted: &str) -> Option<Pos>
        ensures { place_in result ≡ w.part_at wanted.now (variables_in self.now) }
    {
        match self {
            Scope::Empty => None,
            Scope::Bound {
                at,
                name,
                class,
                outer,
            } => {
                if wanted != name.text() {
                    outer.part_at(wanted)
                } else if class.is_part() {
                    Some(*at)
                } else {
                    None
                }
            }
        }
    }
}
