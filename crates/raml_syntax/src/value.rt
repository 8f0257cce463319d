// Values.

/// A value of the language.
#[derive(Debug, Drop)]
pub enum Value {
    Int(i64),
    Bool(bool),
    Pair(Box<Value>, Box<Value>),
    /// The elements, the head first.
    List(Vec<Value>),
    Leaf,
    /// An element with the trees to its left and to its right.
    Node(Box<Value>, Box<Value>, Box<Value>),
    /// `none`.
    Nothing,
    /// `some` of a value.
    Just(Box<Value>),
}
