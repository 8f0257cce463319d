// What is written in a line.
use crate::term::Term;
use cost_free::Meter;

/// The name of a function, a meter, and the terms of a sum.
#[derive(Debug, Drop)]
pub struct Line<'a> {
    pub name: &'a str,
    pub meter: Meter,
    pub terms: Vec<Term<'a>>,
}
