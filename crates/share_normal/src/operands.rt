// Step two of forms whose operands are all that they use.
ghost use Rattle.normal_spec.specs.Norm as n;
ghost use Rattle.normal_spec.specs.Two as two;
ghost use Rattle.normal_spec.specs.Read.{op_form};
ghost use Rattle.share_normal.specs.Made.{IsMade};

use crate::slots::{Slot, copy_of};
use crate::taken::{AllTaken, Sharing};
use crate::wrapped::{expr, share_all};
use normal_spec::{NormExpr, NormForm, NormOp};
use raml_syntax::{ArithOp, CompareOp, FunId};
use std::alloc::AllocError;

impl Sharing {
    /// Arithmetic.
    fn share_arith(
        &mut self,
        nodes: u32,
        op: ArithOp,
        operands: (u32, u32),
        slots: &[Slot],
    ) -> Result<NormExpr, AllocError>
        ensures { IsMade result self.new.next (two.two (n.Arith nodes op operands.0 operands.1) slots.now self.old.next) }
    {
        let AllTaken { names, shares } = self.take_all(&[operands.0, operands.1], slots)?;
        let form = NormForm::Op(NormOp::Arith(op, names[0], names[1]));
        share_all(self.alloc, shares, expr(nodes, form))
    }

    /// A comparison.
    fn share_compare(
        &mut self,
        nodes: u32,
        op: CompareOp,
        operands: (u32, u32),
        slots: &[Slot],
    ) -> Result<NormExpr, AllocError>
        ensures { IsMade result self.new.next (two.two (n.Compare nodes op operands.0 operands.1) slots.now self.old.next) }
    {
        let AllTaken { names, shares } = self.take_all(&[operands.0, operands.1], slots)?;
        let form = NormForm::Op(NormOp::Compare(op, names[0], names[1]));
        share_all(self.alloc, shares, expr(nodes, form))
    }

    /// An operator.
    pub fn share_operator(
        &mut self,
        nodes: u32,
        op: NormOp,
        slots: &[Slot],
    ) -> Result<NormExpr, AllocError>
        ensures { IsMade result self.new.next (two.two (op_form op nodes) slots.now self.old.next) }
    {
        match op {
            NormOp::Arith(op, x, y) => self.share_arith(nodes, op, (x, y), slots),
            NormOp::Compare(op, x, y) => self.share_compare(nodes, op, (x, y), slots),
            NormOp::Not(x) => {
                let form = NormForm::Op(NormOp::Not(copy_of(x, slots)));
                Ok(expr(nodes, form))
            }
        }
    }

    /// A pair.
    pub fn share_pair(
        &mut self,
        nodes: u32,
        operands: (u32, u32),
        slots: &[Slot],
    ) -> Result<NormExpr, AllocError>
        ensures { IsMade result self.new.next (two.two (n.Pair nodes operands.0 operands.1) slots.now self.old.next) }
    {
        let AllTaken { names, shares } = self.take_all(&[operands.0, operands.1], slots)?;
        let form = NormForm::Pair(names[0], names[1]);
        share_all(self.alloc, shares, expr(nodes, form))
    }

    /// A list of a head and a tail.
    pub fn share_cons(
        &mut self,
        nodes: u32,
        operands: (u32, u32),
        slots: &[Slot],
    ) -> Result<NormExpr, AllocError>
        ensures { IsMade result self.new.next (two.two (n.Cons nodes operands.0 operands.1) slots.now self.old.next) }
    {
        let AllTaken { names, shares } = self.take_all(&[operands.0, operands.1], slots)?;
        let form = NormForm::Cons(names[0], names[1]);
        share_all(self.alloc, shares, expr(nodes, form))
    }

    /// A tree of an element and two trees.
    pub fn share_node(
        &mut self,
        nodes: u32,
        operands: (u32, u32, u32),
        slots: &[Slot],
    ) -> Result<NormExpr, AllocError>
        ensures { IsMade result self.new.next (two.two (n.Node nodes operands.0 operands.1 operands.2) slots.now self.old.next) }
    {
        let (element, left, right) = operands;
        let AllTaken { names, shares } = self.take_all(&[element, left, right], slots)?;
        let form = NormForm::Node(names[0], names[1], names[2]);
        share_all(self.alloc, shares, expr(nodes, form))
    }

    /// A call.
    pub fn share_call(
        &mut self,
        nodes: u32,
        fun: FunId,
        args: &[u32],
        slots: &[Slot],
    ) -> Result<NormExpr, AllocError>
        ensures { IsMade result self.new.next (two.two (n.Call nodes fun.0 args.now) slots.now self.old.next) }
    {
        let AllTaken { names, shares } = self.take_all(args, slots)?;
        let form = NormForm::Call(fun, names);
        share_all(self.alloc, shares, expr(nodes, form))
    }
}
