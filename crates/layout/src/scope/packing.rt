// A scope from a list of variables, and back.
ghost use Rattle.std.specs.Prelude.{◌≡◌, ◌≤◌, length};
ghost use Rattle.theory.specs.Sizes.{Known};
ghost use Rattle.layout.specs.Scopes.{listed, NoneTwice};

use crate::scope::Scope;
use short_list::ShortList;

impl Scope {
    // The scope of these variables.
    pub(crate) fn of(list: &[usize]) -> Scope
        requires few { length list.now ≤ 4 }
        requires small { Known 64 list.now }
        requires distinct { NoneTwice list.now }
        ensures { listed result ≡ list.now }
    {
        let mut variables = ShortList::empty(0);
        for variable in list {
            variables.push(*variable as u8);
        }
        Scope { variables }
    }

    // The variables, by place.
    pub(crate) fn list(&self) -> &[u8]
        ensures { result.now ≡ listed self.now }
    {
        self.variables.as_slice()
    }
}
