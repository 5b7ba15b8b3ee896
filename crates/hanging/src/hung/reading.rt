// What is hung, node by node.
ghost use Rattle.std.specs.Prelude.{◌≡◌, ◌<◌, ◌≤◌};
ghost use Rattle.hanging.specs.Hung.{variable_at, function_at, place_of, order_of, count_of, node_at};

use crate::hung::Hung;
use crate::node::{Function, Node, Variable};

impl Hung {
    // What a variable hangs from.
    pub fn variable(&self, v: usize) -> Variable
        requires { v < 64 }
        ensures { result ≡ variable_at self.now v }
    {
        self.variables[v]
    }

    // What a function hangs from.
    pub fn function(&self, f: usize) -> Function
        requires { f < 64 }
        ensures { result ≡ function_at self.now f }
    {
        self.functions[f]
    }

    // The place by which a function hangs from the variable there; 0 for one that is not hung.
    pub fn place_of(&self, f: usize) -> usize
        requires { f < 64 }
        ensures { result ≡ place_of self.now f }
    {
        self.function(f).parent.unwrap_or(0)
    }

    // The hung nodes, each after the one that it hangs from.
    pub fn order(&self) -> &[Node]
        ensures { result.now ≡ order_of self.now }
    {
        self.order.as_slice()
    }

    // How many nodes are hung.
    pub fn count(&self) -> usize
        ensures count { result ≡ count_of self.now }
        ensures few { result ≤ 128 }
    {
        self.order.len()
    }

    // The node at a position of the order; the first variable at any position past its end.
    pub fn node(&self, position: usize) -> Node
        ensures { result ≡ node_at self.now position }
    {
        self.order()
            .get(position)
            .copied()
            .unwrap_or(Node::Variable(0))
    }
}
