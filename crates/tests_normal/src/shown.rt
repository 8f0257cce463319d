// Normal forms as texts. A variable is shown by its place among all that were shown before.
use normal_spec::{Const, NormExpr, NormForm, NormFun, NormOp};
use raml_syntax::{ArithOp, CompareOp, FunId};
use std::alloc::{AllocError, Global};
use std::fmt::Write;

/// A text, and the variables that are shown in it, in the order in which they came first.
#[derive(Drop)]
pub struct Shown {
    text: String,
    variables: Vec<u32>,
}

fn arith_word(op: ArithOp) -> &'static str {
    match op {
        ArithOp::Add => "Arith(Add, ",
        ArithOp::Sub => "Arith(Sub, ",
        ArithOp::Mul => "Arith(Mul, ",
        ArithOp::Div => "Arith(Div, ",
        ArithOp::Mod => "Arith(Mod, ",
    }
}

fn compare_word(op: CompareOp) -> &'static str {
    match op {
        CompareOp::Equal => "Compare(Equal, ",
        CompareOp::Less => "Compare(Less, ",
        CompareOp::AtMost => "Compare(AtMost, ",
    }
}

impl Shown {
    pub fn new(alloc: Global) -> Shown {
        Shown {
            text: String::new(alloc),
            variables: Vec::new(alloc),
        }
    }

    pub fn text(&self) -> &str {
        self.text.as_str()
    }

    fn word(&mut self, word: &str) -> Result<(), AllocError> {
        self.text.push_str(word)?;
        Ok(())
    }

    /// The place of a variable; it gets one where it has none.
    fn place_of(&mut self, variable: u32) -> Result<usize, AllocError> {
        for (place, shown) in self.variables.iter().enumerate() {
            if *shown == variable {
                return Ok(place);
            }
        }
        let place = self.variables.len();
        self.variables.push(variable)?;
        Ok(place)
    }

    fn variable(&mut self, variable: u32) -> Result<(), AllocError> {
        let place = self.place_of(variable)?;
        write!(self.text, "v{place}")
    }

    /// Variables behind a word, with commas between them.
    fn row(&mut self, word: &str, variables: &[u32]) -> Result<(), AllocError> {
        let mut before = word;
        for variable in variables {
            self.word(before)?;
            self.variable(*variable)?;
            before = ", ";
        }
        Ok(())
    }

    fn closed_row(&mut self, word: &str, variables: &[u32]) -> Result<(), AllocError> {
        self.row(word, variables)?;
        self.word(")")
    }

    fn operator(&mut self, op: NormOp) -> Result<(), AllocError> {
        match op {
            NormOp::Arith(op, x, y) => self.closed_row(arith_word(op), &[x, y]),
            NormOp::Compare(op, x, y) => self.closed_row(compare_word(op), &[x, y]),
            NormOp::Not(x) => self.closed_row("Not(", &[x]),
        }
    }

    fn constant(&mut self, constant: Const) -> Result<(), AllocError> {
        match constant {
            Const::Number(number) => write!(self.text, "Number({number})"),
            Const::Truth(truth) => write!(self.text, "Truth({truth})"),
        }
    }

    fn call(&mut self, fun: FunId, args: &[u32]) -> Result<(), AllocError> {
        write!(self.text, "Call {}[", fun.0)?;
        self.row("", args)?;
        self.word("]")
    }

    /// A part behind a comma.
    #[cycle(shown)]
    fn part(&mut self, part: &NormExpr) -> Result<(), AllocError> {
        self.word(", ")?;
        self.form(part)
    }

    /// Behind a word and variables one part.
    #[cycle(shown)]
    fn with_part(
        &mut self,
        word: &str,
        variables: &[u32],
        part: &NormExpr,
    ) -> Result<(), AllocError> {
        self.row(word, variables)?;
        self.part(part)?;
        self.word(")")
    }

    /// Behind a word and a variable two parts, with variables between them.
    #[cycle(shown)]
    fn with_parts(
        &mut self,
        word: &str,
        variable: u32,
        first: &NormExpr,
        bound: &[u32],
        second: &NormExpr,
    ) -> Result<(), AllocError> {
        self.row(word, &[variable])?;
        self.part(first)?;
        self.row(", ", bound)?;
        self.part(second)?;
        self.word(")")
    }

    #[cycle(shown)]
    fn tick(&mut self, ticks: u32, part: &NormExpr) -> Result<(), AllocError> {
        write!(self.text, "Tick({ticks}")?;
        self.part(part)?;
        self.word(")")
    }

    #[cycle(shown)]
    fn form(&mut self, e: &NormExpr) -> Result<(), AllocError> {
        match &e.form {
            NormForm::Var(x) => self.row("Var ", &[*x]),
            NormForm::Const(constant) => self.constant(*constant),
            NormForm::Nil => self.word("Nil"),
            NormForm::Leaf => self.word("Leaf"),
            NormForm::Nothing => self.word("None"),
            NormForm::Op(op) => self.operator(*op),
            NormForm::Pair(x, y) => self.closed_row("Pair(", &[*x, *y]),
            NormForm::Cons(x, y) => self.closed_row("Cons(", &[*x, *y]),
            NormForm::Node(x, y, z) => self.closed_row("Node(", &[*x, *y, *z]),
            NormForm::Just(x) => self.closed_row("Some(", &[*x]),
            NormForm::Call(fun, args) => self.call(*fun, args),
            NormForm::Let(x, _, a, b) => self.with_parts("Let(", *x, a, &[], b),
            NormForm::Split(x, y, z, a) => self.with_part("Split(", &[*x, *y, *z], a),
            NormForm::If(x, a, b) => self.with_parts("If(", *x, a, &[], b),
            NormForm::CaseList(x, a, y, z, b) => self.with_parts("CaseList(", *x, a, &[*y, *z], b),
            NormForm::CaseTree(x, a, y, z, w, b) => {
                self.with_parts("CaseTree(", *x, a, &[*y, *z, *w], b)
            }
            NormForm::CaseOption(x, a, y, b) => self.with_parts("CaseOption(", *x, a, &[*y], b),
            NormForm::Tick(ticks, a) => self.tick(*ticks, a),
            NormForm::Share(x, y, z, a) => self.with_part("Share(", &[*x, *y, *z], a),
            NormForm::Drop(x, a) => self.with_part("Drop(", &[*x], a),
        }?;
        match e.nodes {
            0 => Ok(()),
            nodes => write!(self.text, "#{nodes}"),
        }
    }

    /// A line for a function: its name, its parameters and its body.
    pub fn function(&mut self, name: &str, fun: &NormFun) -> Result<(), AllocError> {
        self.variables.clear();
        self.word(name)?;
        let mut before = " [";
        for param in &fun.params {
            self.word(before)?;
            self.variable(param.0)?;
            before = ", ";
        }
        self.word("]: ")?;
        self.form(&fun.body)?;
        self.word("\n")
    }
}
