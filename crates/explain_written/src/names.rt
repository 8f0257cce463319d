// Names as they are written.
use raml_syntax::{Expr, Name, Ty};

/// A name as it is written: with a number behind it, or with none where that is 0.
#[derive(Clone, Copy)]
pub struct Written<'a> {
    pub name: &'a Name,
    pub number: u32,
}

/// How the variables at hand are written, the newest outermost. All others are written as they are.
#[derive(Clone, Copy)]
pub enum Names<'s, 'a> {
    Empty,
    /// A name that is bound, and what stands for it.
    Bound {
        name: &'a Name,
        written: Written<'a>,
        outer: &'s Names<'s, 'a>,
    },
    /// A name of which it is known of what its value is built, where other names are at hand.
    Known {
        name: &'a Name,
        written: Written<'a>,
        value: &'a Expr,
        ty: Option<&'a Ty>,
        at: &'s Names<'s, 'a>,
        outer: &'s Names<'s, 'a>,
    },
}

/// Of what a value is built, which type it has where that is known, and what stands there for names.
#[derive(Clone, Copy)]
pub struct Known<'s, 'a> {
    pub value: &'a Expr,
    pub ty: Option<&'a Ty>,
    pub names: &'s Names<'s, 'a>,
}

impl<'s, 'a> Names<'s, 'a> {
    /// How the variable of this name is written.
    pub fn find(&self, name: &'a Name) -> Written<'a> {
        match self {
            Names::Empty => Written { name, number: 0 },
            Names::Bound {
                name: bound,
                written,
                outer,
            }
            | Names::Known {
                name: bound,
                written,
                outer,
                ..
            } => {
                if name.text() == bound.text() {
                    *written
                } else {
                    outer.find(name)
                }
            }
        }
    }

    /// Of what the value of the variable of this name is built, where that is known.
    pub fn known(&self, name: &Name) -> Option<Known<'s, 'a>> {
        match self {
            Names::Empty => None,
            Names::Bound {
                name: bound,
                outer,
                ..
            } => {
                if name.text() == bound.text() {
                    None
                } else {
                    outer.known(name)
                }
            }
            Names::Known {
                name: bound,
                value,
                ty,
                at,
                outer,
                ..
            } => {
                if name.text() == bound.text() {
                    Some(Known {
                        value: *value,
                        ty: *ty,
                        names: *at,
                    })
                } else {
                    outer.known(name)
                }
            }
        }
    }

    /// One more name, for which another stands.
    pub fn with(&'s self, name: &'a Name, written: Written<'a>) -> Names<'s, 'a> {
        Names::Bound {
            name,
            written,
            outer: self,
        }
    }

    /// One more name, for which another stands, and of which it is known of what its value is built.
    pub fn with_known(
        &'s self,
        name: &'a Name,
        written: Written<'a>,
        known: Known<'s, 'a>,
    ) -> Names<'s, 'a> {
        Names::Known {
            name,
            written,
            value: known.value,
            ty: known.ty,
            at: known.names,
            outer: self,
        }
    }

    /// One more name, which is written with this number.
    pub fn with_number(&'s self, name: &'a Name, number: u32) -> Names<'s, 'a> {
        self.with(name, Written { name, number })
    }
}
