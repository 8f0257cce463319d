// What must come at a place of data, by the types of its arguments and what stands before it.
use crate::token::next_token;
use raml_syntax::Ty;
use simple_types::push_type;
use std::alloc::{AllocError, Global};

/// What must come next.
#[derive(Clone, Copy)]
pub enum Need<'a> {
    /// A value of the type.
    Value(&'a Ty),
    /// The first element of a list, or `]`.
    First(&'a Ty),
    /// A comma and a further element, or `]`.
    More(&'a Ty),
    Sign(&'static str),
    /// Nothing: the data ends.
    End,
}

/// What must come behind a text that begins arguments of these types.
pub fn need_behind<'a>(
    alloc: Global,
    text: &[u8],
    types: &'a [Ty],
) -> Result<Need<'a>, AllocError> {
    let mut needs = Needs::of_arguments(alloc, types)?;
    let mut rest = text;
    while let Some((token, behind)) = next_token(rest) {
        needs.take(token)?;
        rest = behind;
    }
    Ok(needs.next())
}

/// What must come, the next of it last.
#[derive(Drop)]
struct Needs<'a> {
    later: Vec<Need<'a>>,
}

impl<'a> Needs<'a> {
    // One value, or several in parentheses with commas between.
    fn of_arguments(alloc: Global, types: &'a [Ty]) -> Result<Needs<'a>, AllocError> {
        let mut later = Vec::new(alloc);
        if let [one] = types {
            later.push(Need::Value(one))?;
            return Ok(Needs { later });
        }
        later.push(Need::Sign(")"))?;
        for ty in types.iter().rev() {
            later.push(Need::Value(ty))?;
            later.push(Need::Sign(","))?;
        }
        later.pop();
        later.push(Need::Sign("("))?;
        Ok(Needs { later })
    }

    fn next(&mut self) -> Need<'a> {
        self.later.pop().unwrap_or(Need::End)
    }

    // Takes a token that may come next.
    fn take(&mut self, token: &[u8]) -> Result<(), AllocError> {
        match self.next() {
            Need::Value(ty) => self.begin(ty, token),
            Need::First(_) | Need::More(_) if matches!(token, b"]") => Ok(()),
            Need::First(element) => {
                self.later.push(Need::More(element))?;
                self.begin(element, token)
            }
            Need::More(element) => self
                .later
                .extend_from_slice(&[Need::More(element), Need::Value(element)]),
            Need::Sign(_) | Need::End => Ok(()),
        }
    }

    // Takes the first token of a value of the type.
    fn begin(&mut self, ty: &'a Ty, token: &[u8]) -> Result<(), AllocError> {
        match ty {
            Ty::Int | Ty::Bool => Ok(()),
            Ty::Pair(first, second) => self.later.extend_from_slice(&[
                Need::Sign(")"),
                Need::Value(second),
                Need::Sign(","),
                Need::Value(first),
            ]),
            Ty::List(element) => Ok(self.later.push(Need::First(element))?),
            Ty::Tree(element) if matches!(token, b"node") => self.begin_node(ty, element),
            Ty::Opt(content) if matches!(token, b"some") => self
                .later
                .extend_from_slice(&[Need::Sign(")"), Need::Value(content), Need::Sign("(")]),
            Ty::Tree(_) | Ty::Opt(_) => Ok(()),
        }
    }

    // What comes behind `node`.
    fn begin_node(&mut self, tree: &'a Ty, element: &'a Ty) -> Result<(), AllocError> {
        self.later.extend_from_slice(&[
            Need::Sign(")"),
            Need::Value(tree),
            Need::Sign(","),
            Need::Value(tree),
            Need::Sign(","),
            Need::Value(element),
            Need::Sign("("),
        ])
    }
}

impl<'a> Need<'a> {
    /// Appends what is needed, in words.
    pub fn push_to(self, text: &mut String) -> Result<(), AllocError> {
        match self {
            Need::Value(ty) => push_type(text, ty),
            Need::First(element) => {
                push_type(text, element)?;
                text.push_str(" or ']'")
            }
            Need::More(_) => text.push_str("',' or ']'"),
            Need::Sign(sign) => {
                text.push('\'')?;
                text.push_str(sign)?;
                text.push('\'')
            }
            Need::End => text.push_str("the end"),
        }
    }
}
