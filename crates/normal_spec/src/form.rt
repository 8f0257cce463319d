// Normal forms.
use raml_syntax::{ArithOp, CompareOp, FunId, Ty};

/// A constant.
#[derive(Clone, Copy)]
pub enum Const {
    Number(i64),
    Truth(bool),
}

/// An operator over variables.
#[derive(Clone, Copy)]
pub enum NormOp {
    Arith(ArithOp, u32, u32),
    Compare(CompareOp, u32, u32),
    Not(u32),
}

/// A form, and how many nodes of the source it stands for.
#[cycle(normal)]
#[derive(Drop)]
pub struct NormExpr {
    pub nodes: u32,
    pub form: NormForm,
}

/// The form of an expression whose operands are variables. Each variable is used once on each path.
#[cycle(normal)]
#[derive(Drop)]
pub enum NormForm {
    Var(u32),
    Const(Const),
    Nil,
    Leaf,
    /// `none`.
    Nothing,
    Op(NormOp),
    Pair(u32, u32),
    /// A head before a tail.
    Cons(u32, u32),
    /// An element with the trees to its left and to its right.
    Node(u32, u32, u32),
    /// `some` of a variable.
    Just(u32),
    Call(FunId, Vec<u32>),
    /// A new variable, the type and the form that it is bound to, and the rest.
    Let(u32, Ty, Box<NormExpr>, Box<NormExpr>),
    /// A pair, new variables for its parts, and the rest.
    Split(u32, u32, u32, Box<NormExpr>),
    /// A condition, and the branches for true and for false.
    If(u32, Box<NormExpr>, Box<NormExpr>),
    /// A list, the branch for the empty one, new variables for head and tail, and their branch.
    CaseList(u32, Box<NormExpr>, u32, u32, Box<NormExpr>),
    /// A tree, the branch for the leaf, new variables for the element, the left tree and the right
    /// one, and their branch.
    CaseTree(u32, Box<NormExpr>, u32, u32, u32, Box<NormExpr>),
    /// An option, the branch for `none`, a new variable for the content, and its branch.
    CaseOption(u32, Box<NormExpr>, u32, Box<NormExpr>),
    /// A number of ticks, and then the rest.
    Tick(u32, Box<NormExpr>),
    /// A variable, two new ones that stand for it, and the rest.
    Share(u32, u32, u32, Box<NormExpr>),
    /// A variable that is not used, and the rest.
    Drop(u32, Box<NormExpr>),
}

/// A function in normal form: its parameters as variables with their types, and its body.
#[derive(Drop)]
pub struct NormFun {
    pub params: Vec<(u32, Ty)>,
    pub body: NormExpr,
}
