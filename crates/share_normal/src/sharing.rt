// Step two: each variable is used once on each path.
ghost use Rattle.std.specs.Prelude.{◌≡◌, IfOk, OnOk};
ghost use Rattle.raml_syntax.specs.Read.{ty_of};
ghost use Rattle.normal_spec.specs.Norm as n;
ghost use Rattle.normal_spec.specs.Two as two;
ghost use Rattle.normal_spec.specs.Read.{norm_of};
ghost use Rattle.share_normal.specs.Made.{IsMade, form_in};
ghost use Rattle.share_normal.specs.Numbers.{NumbersFit};

use crate::free::free_variables;
use crate::marked::Marked;
use crate::slots::{Slot, copy_of, put, unused, used};
use crate::taken::{Parted, Sharing, Taken};
use crate::wrapped::{drop_all, expr, share_all};
use normal_spec::{NormExpr, NormForm};
use raml_syntax::Ty;
use std::alloc::AllocError;

impl Sharing {
    /// The form with these slots, all of which are free in it.
    #[cycle(sharing)]
    fn share<'a>(&mut self, marked: Marked<'a>, slots: &[Slot]) -> Result<NormExpr, AllocError>
        ensures { IsMade result self.new.next (two.two (form_in marked.entry) slots.now self.old.next) }
    {
        let nodes = marked.expr.nodes;
        match &marked.expr.form {
            NormForm::Var(x) => Ok(expr(nodes, NormForm::Var(copy_of(*x, slots)))),
            NormForm::Const(constant) => Ok(expr(nodes, NormForm::Const(*constant))),
            NormForm::Nil => Ok(expr(nodes, NormForm::Nil)),
            NormForm::Leaf => Ok(expr(nodes, NormForm::Leaf)),
            NormForm::Nothing => Ok(expr(nodes, NormForm::Nothing)),
            NormForm::Op(op) => self.share_operator(nodes, *op, slots),
            NormForm::Pair(x, y) => self.share_pair(nodes, (*x, *y), slots),
            NormForm::Cons(head, tail) => self.share_cons(nodes, (*head, *tail), slots),
            NormForm::Node(element, left, right) => {
                self.share_node(nodes, (*element, *left, *right), slots)
            }
            NormForm::Just(x) => Ok(expr(nodes, NormForm::Just(copy_of(*x, slots)))),
            NormForm::Call(fun, args) => self.share_call(nodes, *fun, args, slots),
            NormForm::Let(x, ty, bound, rest) => {
                let bound = marked.first(bound);
                let rest = marked.second(rest);
                self.share_let(nodes, *x, ty, bound, rest, slots)
            }
            NormForm::Split(pair, first, second, rest) => {
                self.share_split(nodes, *pair, (*first, *second), marked.first(rest), slots)
            }
            NormForm::If(condition, first, second) => {
                let first = marked.first(first);
                let second = marked.second(second);
                self.share_if(nodes, *condition, first, second, slots)
            }
            NormForm::CaseList(list, empty, head, tail, rest) => {
                let empty = marked.first(empty);
                let rest = marked.second(rest);
                self.share_case_list(nodes, *list, empty, (*head, *tail), rest, slots)
            }
            NormForm::CaseTree(tree, empty, element, left, right, rest) => {
                let empty = marked.first(empty);
                let rest = marked.second(rest);
                let parts = (*element, *left, *right);
                self.share_case_tree(nodes, *tree, empty, parts, rest, slots)
            }
            NormForm::CaseOption(option, empty, content, rest) => {
                let empty = marked.first(empty);
                let rest = marked.second(rest);
                self.share_case_option(nodes, *option, empty, *content, rest, slots)
            }
            NormForm::Tick(ticks, rest) => {
                self.share_tick(nodes, *ticks, marked.first(rest), slots)
            }
            // No forms of step one.
            NormForm::Share(..) => Ok(expr(nodes, NormForm::Nil)),
            NormForm::Drop(..) => Ok(expr(nodes, NormForm::Nil)),
        }
    }

    /// The form with these slots; those that are not free in it are dropped first.
    #[cycle(sharing)]
    fn around<'a>(
        &mut self,
        marked: Marked<'a>,
        slots: &[Slot],
    ) -> Result<Box<NormExpr>, AllocError>
        ensures made { IfOk result (λ made. norm_of made.value ≡
            (two.around (form_in marked.entry) (two.two (form_in marked.entry)) slots.now self.old.next).0) }
        ensures next { OnOk result (self.new.next ≡
            (two.around (form_in marked.entry) (two.two (form_in marked.entry)) slots.now self.old.next).1) }
    {
        let inner = used(self.alloc, marked, slots)?;
        let gone = unused(self.alloc, marked, slots)?;
        let form = self.share(marked, &inner)?;
        let made = drop_all(self.alloc, gone, form)?;
        Ok(Box::new(self.alloc, made)?)
    }

    /// A form that is bound to a variable, and the rest.
    #[cycle(sharing)]
    fn share_let<'a>(
        &mut self,
        nodes: u32,
        variable: u32,
        ty: &Ty,
        bound: Marked<'a>,
        rest: Marked<'a>,
        slots: &[Slot],
    ) -> Result<NormExpr, AllocError>
        ensures { IsMade result self.new.next
            (two.two (n.Let nodes variable (ty_of ty.now) (form_in bound.entry) (form_in rest.entry)) slots.now self.old.next) }
    {
        let Parted {
            first,
            mut second,
            shares,
        } = self.part(bound, rest, slots)?;
        let slot = self.bind(variable)?;
        second.push(slot)?;
        let bound = self.around(bound, &first)?;
        let rest = self.around(rest, &second)?;
        let form = NormForm::Let(slot.copy, ty.copy(self.alloc)?, bound, rest);
        share_all(self.alloc, shares, expr(nodes, form))
    }

    /// A pair that is taken apart for the rest.
    #[cycle(sharing)]
    fn share_split<'a>(
        &mut self,
        nodes: u32,
        pair: u32,
        parts: (u32, u32),
        rest: Marked<'a>,
        slots: &[Slot],
    ) -> Result<NormExpr, AllocError>
        ensures { IsMade result self.new.next (two.two (n.Split nodes pair parts.0 parts.1 (form_in rest.entry)) slots.now self.old.next) }
    {
        let again = rest.has_free(pair);
        let Taken { name, stay, shares } = self.take_slot(again, pair, slots)?;
        let first = self.bind(parts.0)?;
        let second = self.bind(parts.1)?;
        let inner = put(self.alloc, pair, &[first, second], &stay, slots)?;
        let rest = self.around(rest, &inner)?;
        let form = NormForm::Split(name, first.copy, second.copy, rest);
        share_all(self.alloc, shares, expr(nodes, form))
    }

    /// The branches of a condition.
    #[cycle(sharing)]
    fn share_if<'a>(
        &mut self,
        nodes: u32,
        condition: u32,
        first: Marked<'a>,
        second: Marked<'a>,
        slots: &[Slot],
    ) -> Result<NormExpr, AllocError>
        ensures { IsMade result self.new.next
            (two.two (n.If nodes condition (form_in first.entry) (form_in second.entry)) slots.now self.old.next) }
    {
        let again = first.has_free(condition) || second.has_free(condition);
        let Taken { name, stay, shares } = self.take_slot(again, condition, slots)?;
        let inner = put(self.alloc, condition, &[], &stay, slots)?;
        let first = self.around(first, &inner)?;
        let second = self.around(second, &inner)?;
        let form = NormForm::If(name, first, second);
        share_all(self.alloc, shares, expr(nodes, form))
    }

    /// The branches of a list.
    #[cycle(sharing)]
    fn share_case_list<'a>(
        &mut self,
        nodes: u32,
        list: u32,
        empty: Marked<'a>,
        parts: (u32, u32),
        rest: Marked<'a>,
        slots: &[Slot],
    ) -> Result<NormExpr, AllocError>
        ensures { IsMade result self.new.next
            (two.two (n.CaseList nodes list (form_in empty.entry) parts.0 parts.1 (form_in rest.entry)) slots.now self.old.next) }
    {
        let again = empty.has_free(list) || rest.has_free(list);
        let Taken { name, stay, shares } = self.take_slot(again, list, slots)?;
        let head = self.bind(parts.0)?;
        let tail = self.bind(parts.1)?;
        let outer = put(self.alloc, list, &[], &stay, slots)?;
        let inner = put(self.alloc, list, &[head, tail], &stay, slots)?;
        let empty = self.around(empty, &outer)?;
        let rest = self.around(rest, &inner)?;
        let form = NormForm::CaseList(name, empty, head.copy, tail.copy, rest);
        share_all(self.alloc, shares, expr(nodes, form))
    }

    /// The branches of a tree.
    #[cycle(sharing)]
    fn share_case_tree<'a>(
        &mut self,
        nodes: u32,
        tree: u32,
        empty: Marked<'a>,
        parts: (u32, u32, u32),
        rest: Marked<'a>,
        slots: &[Slot],
    ) -> Result<NormExpr, AllocError>
        ensures { IsMade result self.new.next
            (two.two (n.CaseTree nodes tree (form_in empty.entry) parts.0 parts.1 parts.2 (form_in rest.entry)) slots.now self.old.next) }
    {
        let again = empty.has_free(tree) || rest.has_free(tree);
        let Taken { name, stay, shares } = self.take_slot(again, tree, slots)?;
        let element = self.bind(parts.0)?;
        let left = self.bind(parts.1)?;
        let right = self.bind(parts.2)?;
        let outer = put(self.alloc, tree, &[], &stay, slots)?;
        let inner = put(self.alloc, tree, &[element, left, right], &stay, slots)?;
        let empty = self.around(empty, &outer)?;
        let rest = self.around(rest, &inner)?;
        let form = NormForm::CaseTree(name, empty, element.copy, left.copy, right.copy, rest);
        share_all(self.alloc, shares, expr(nodes, form))
    }

    /// The branches of an option.
    #[cycle(sharing)]
    fn share_case_option<'a>(
        &mut self,
        nodes: u32,
        option: u32,
        empty: Marked<'a>,
        content: u32,
        rest: Marked<'a>,
        slots: &[Slot],
    ) -> Result<NormExpr, AllocError>
        ensures { IsMade result self.new.next
            (two.two (n.CaseOption nodes option (form_in empty.entry) content (form_in rest.entry)) slots.now self.old.next) }
    {
        let again = empty.has_free(option) || rest.has_free(option);
        let Taken { name, stay, shares } = self.take_slot(again, option, slots)?;
        let content = self.bind(content)?;
        let outer = put(self.alloc, option, &[], &stay, slots)?;
        let inner = put(self.alloc, option, &[content], &stay, slots)?;
        let empty = self.around(empty, &outer)?;
        let rest = self.around(rest, &inner)?;
        let form = NormForm::CaseOption(name, empty, content.copy, rest);
        share_all(self.alloc, shares, expr(nodes, form))
    }

    /// Ticks before the rest.
    #[cycle(sharing)]
    fn share_tick<'a>(
        &mut self,
        nodes: u32,
        ticks: u32,
        rest: Marked<'a>,
        slots: &[Slot],
    ) -> Result<NormExpr, AllocError>
        ensures { IsMade result self.new.next (two.two (n.Tick nodes ticks (form_in rest.entry)) slots.now self.old.next) }
    {
        let rest = Box::new(self.alloc, self.share(rest, slots)?)?;
        Ok(expr(nodes, NormForm::Tick(ticks, rest)))
    }

    /// Step two of a body of step one, of whose variables the slots have those that are free.
    pub fn share_body(&mut self, body: &NormExpr, slots: &[Slot]) -> Result<NormExpr, AllocError>
        ensures made { IfOk result (λ made. norm_of made ≡
            (two.around (norm_of body.now) (two.two (norm_of body.now)) slots.now self.old.next).0) }
        ensures numbers { OnOk result (NumbersFit (norm_of body.now)) }
    {
        let free = free_variables(self.alloc, body)?;
        let marked = Marked {
            expr: body,
            free: &free,
        };
        let made = self.around(marked, slots)?;
        Ok(Box::into_inner(made))
    }
}
