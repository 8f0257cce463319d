// Plans.
ghost use Rattle.std.specs.Prelude.{◌≡◌, ◌↔◌, ◌<◌, ◌^◌, length, map, IsSome, IfSome};
ghost use Rattle.rules_walk.specs.Steps.{part_of};

use cost_free::Meter;
use index_shift::Entry;
use std::marker::Model;
use std::rc::Rc;

/// Which signatures a call takes, and whether prices are paid.
#[derive(Clone, Copy, Debug, PartialEq, Eq)]
pub enum Mode {
    /// Prices are paid, and a call takes one signature with cost.
    With(Meter),
    /// A call of the present group takes the present block's signature.
    Own,
    /// No call does.
    Past,
}

/// A map to so many positions.
#[derive(Drop)]
pub struct Step {
    pub size: usize,
    pub entries: Vec<Entry>,
}

/// Of a `let`, a tuple of the variables that the bound form does not use.
#[derive(Drop)]
pub struct Part {
    /// To the context of the bound form, at the budget that the tuple leaves.
    pub there: Step,
    /// How many positions the bound form's result has there.
    pub size: usize,
    /// From these to the context of the rest.
    pub joins: Vec<Entry>,
    pub degree: usize,
}

/// The tuples of a `let`, fewer than 2^32. Contracts see the list of them.
#[derive(Drop)]
pub struct Parts {
    parts: Vec<Part>,
}

impl Model for Parts {
    ghost use Rattle.std.specs.Prelude.{List, map, length, ◌<◌, ◌^◌};
    ghost use Rattle.rules_spec.specs.Plan as p;
    ghost use Rattle.rules_walk.specs.Steps.{part_of};

    ghost Value = { List p.Part };

    ghost view = { λ parts. map part_of parts.parts.items };

    ghost invariant = { λ parts. length parts.parts.items < 2 ^ 32 };
}

impl Parts {
    /// These tuples; none exactly where there are 2^32 or more.
    pub fn new(parts: Vec<Part>) -> Option<Parts>
        ensures exactly { IsSome result ↔ (length parts.items < 2 ^ 32) }
        ensures all { IfSome result (λ made. made ≡ map part_of parts.items) }
    {
        if (parts.len() as u64) < 1 << 32 {
            Some(Parts { parts })
        } else {
            None
        }
    }

    /// The tuples in order.
    pub fn list(&self) -> &[Part]
        ensures all { map part_of result.now ≡ self.now }
        ensures few { length result.now < 2 ^ 32 }
    {
        &self.parts
    }
}

/// A cost-free block that has a signature of a function, by its number, and its budget.
#[derive(Clone, Copy, Debug, PartialEq, Eq)]
pub struct Usage {
    pub block: u32,
    pub budget: u8,
}

/// What a call needs. Which signatures it may take multiples of is told beside the plan.
#[derive(Drop)]
pub struct Called {
    pub function: usize,
    /// Its place in the present group.
    pub own: Option<usize>,
    /// How many positions the context has, and how many the result.
    pub args: usize,
    pub result: usize,
    /// From the arguments and the result of a signature at each budget.
    pub args_from: Vec<Vec<Entry>>,
    pub result_from: Vec<Vec<Entry>>,
}

/// The plan of a form. The number of the form's nodes stands first.
#[derive(Drop)]
pub enum Plan {
    /// A form without parts: its cells, and the maps by which the result comes to the context.
    Ends(u32, u32, Vec<Step>),
    /// Ticks, and the rest.
    Pays(u32, u32, Box<Plan>),
    /// The context changes, and the rest.
    Moves(u32, Step, Box<Plan>),
    /// The context changes for each of two branches.
    Forks(u32, Step, Box<Plan>, Step, Box<Plan>),
    /// How many positions the context has with both copies, the map from there, and the rest.
    Shares(u32, usize, Step, Box<Plan>),
    Calls(u32, Called),
    /// The tuples, the bound form at each budget from the present one down, how many positions the
    /// context of the rest has, and the rest. Plans of bound forms are shared by all plans above them.
    Lets(u32, Parts, Vec<Rc<Plan>>, usize, Box<Plan>),
}
