// One node more is hung.
ghost use Rattle.std.specs.Prelude.{◌<◌};
ghost use Rattle.hanging.specs.Hung.{NoneHung, WithVariable, WithFunction, count_of};

use crate::hung::Hung;
use crate::node::{Function, Node, Variable};
use layout::{MOST_FUNCTIONS, MOST_VARIABLES};
use short_list::ShortList;

impl Hung {
    // No node is hung.
    pub(super) fn none() -> Hung
        ensures { NoneHung result }
    {
        Hung {
            variables: [Variable {
                hung: false,
                parent: None,
            }; MOST_VARIABLES],
            functions: [Function { parent: None }; MOST_FUNCTIONS],
            order: ShortList::empty(Node::Variable(0)),
        }
    }

    // Writes down that the variable hangs from the parent.
    pub(super) fn mark_variable(&mut self, v: usize, parent: Option<usize>)
        requires within { v < 64 }
        requires room { count_of self.old < 128 }
        ensures { WithVariable self.old v parent self.new }
    {
        self.variables[v] = Variable { hung: true, parent };
        self.order.push(Node::Variable(v));
    }

    // Writes down that the function hangs by the place.
    pub(super) fn mark_function(&mut self, f: usize, place: usize)
        requires within { f < 64 }
        requires room { count_of self.old < 128 }
        ensures { WithFunction self.old f place self.new }
    {
        self.functions[f] = Function {
            parent: Some(place),
        };
        self.order.push(Node::Function(f));
    }
}
