//! The types of a VI's wires.

ghost use Rattle.std.specs.Prelude.{◌≡◌, ℕ, List, None, slice_get};
ghost use Rattle.std.specs.Option.{option_copied};
ghost use Rattle.g_vi_tables.specs.Types as spec;
ghost use Rattle.g_vi_tables.specs.Types.{types_of, own_type, cases_of};

use g_types::Ty;
use std::alloc::Global;
use std::collections::BTreeMap;

/// Types of names.
pub type Scope<'m> = BTreeMap<&'m [u8], &'m Ty>;

/// The types of a VI's wires. One that isn't kept is unknown. What the tunnels of a case give is kept
/// once for all its branches.
#[derive(Drop)]
pub struct WireTypes<'m> {
    /// The types of names, each in its diagram.
    pub own: BTreeMap<u32, Scope<'m>>,
    /// What the tunnels of cases give, the same in each branch; a case's place here is its number.
    pub cases: Vec<Scope<'m>>,
    /// The cases of which each diagram is a branch, by their numbers.
    pub branches: BTreeMap<u32, &'m [usize]>,
}

fn scope_type<'t, 'm>(scopes: &'t [Scope<'m>], number: usize, name: &[u8]) -> Option<&'m Ty>
    ensures { option_copied result ≡ spec.scope_type (slice_get scopes.now number) name.now }
{
    match scopes.get(number) {
        None => None,
        Some(scope) => scope.get(name).copied(),
    }
}

/// The type of a name by the first of some cases that has one.
fn first_type<'t, 'm>(scopes: &'t [Scope<'m>], cases: &[usize], name: &[u8]) -> Option<&'m Ty>
    ensures { option_copied result ≡ spec.first_type scopes.now cases.now name.now }
{
    for number in cases {
        let ty = scope_type(scopes, *number, name);
        if ty.is_some() {
            return ty;
        }
    }
    None
}

impl<'m> WireTypes<'m> {
    /// Nothing is known.
    pub fn new(alloc: Global) -> WireTypes<'m>
        ensures { (d : ℕ) (name : List ℕ) → types_of result d name ≡ None }
    {
        WireTypes {
            own: BTreeMap::new(alloc),
            cases: Vec::new(alloc),
            branches: BTreeMap::new(alloc),
        }
    }

    fn get_own(&self, diagram: u32, name: &[u8]) -> Option<&'m Ty>
        ensures { option_copied result ≡ own_type self.now.own diagram name.now }
    {
        match self.own.get(&diagram) {
            None => None,
            Some(scope) => scope.get(name).copied(),
        }
    }

    fn get_in_branch(&self, diagram: u32, name: &[u8]) -> Option<&'m Ty>
        ensures { option_copied result ≡ spec.first_type self.now.cases.items (cases_of self.now.branches diagram) name.now }
    {
        match self.branches.get(&diagram) {
            None => None,
            Some(cases) => first_type(self.cases.as_slice(), *cases, name),
        }
    }

    /// The type of a name in a diagram, where it is known.
    pub fn get(&self, diagram: u32, name: &[u8]) -> Option<&'m Ty>
        ensures { option_copied result ≡ types_of self.now diagram name.now }
    {
        let own = self.get_own(diagram, name);
        if own.is_some() {
            return own;
        }
        self.get_in_branch(diagram, name)
    }
}
