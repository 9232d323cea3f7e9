//! What is known of the types of a VI's wires.

ghost use Rattle.std.specs.Prelude.{◌≡◌, ◌==◌, ◌&&◌, ◌++◌, ◌∷◌, [], ℕ, List, map, slice_get, OnOk, Some, None, if◌then◌else◌};
ghost use Rattle.std.specs.Option.{option_copied, option_map, option_or};
ghost use Rattle.std.specs.Str.{bytes_eq};
ghost use Rattle.g_diagram_table.specs.Seen.{seen_arm};
ghost use Rattle.g_typing.specs.Types as spec;
ghost use Rattle.g_rules_types.specs.Known as known;
ghost use Rattle.g_rules_types.specs.Known.{types_of, IsIndexed};
ghost use Rattle.g_rules_types.specs.Panels.{found};

use g_diagram::Wire;
use g_diagram_table::Arm;
use g_types::Ty;
use std::alloc::{AllocError, Global};
use std::collections::BTreeMap;

/// What the tunnels of a case give to names, the same in each of its branches.
pub type Scope<'a> = BTreeMap<&'a [u8], Ty>;

/// The cases of which each diagram is a branch, by their numbers.
pub type Branches = BTreeMap<u32, Vec<usize>>;

/// The types of a VI's wires. One that isn't kept is unknown. What the tunnels of a case give is kept
/// once for all its branches.
#[derive(Drop)]
pub struct WireTypes<'a> {
    /// The types of names, each in its diagram.
    pub own: BTreeMap<(u32, &'a [u8]), Ty>,
    /// What the tunnels of cases give; a case's place here is its number.
    pub cases: Vec<Scope<'a>>,
    pub branches: Branches,
}

fn scope_type<'t, 'm>(scopes: &'t [Scope<'m>], number: usize, name: &'m [u8]) -> Option<&'t Ty>
    ensures { option_copied result ≡ known.scope_type (slice_get scopes.now number) name.now }
{
    match scopes.get(number) {
        None => None,
        Some(scope) => scope.get(name),
    }
}

/// The type of a name by the first of some cases that has one.
fn first_type<'t, 'm>(scopes: &'t [Scope<'m>], cases: &[usize], name: &'m [u8]) -> Option<&'t Ty>
    ensures { option_copied result ≡ known.first_type scopes.now cases.now name.now }
{
    for number in cases {
        let ty = scope_type(scopes, *number, name);
        if ty.is_some() {
            return ty;
        }
    }
    None
}

/// The numbers of a diagram that may have none yet.
fn numbers_or_none(alloc: Global, cases: Option<Vec<usize>>) -> Vec<usize>
    ensures { result.items ≡ known.numbers cases }
{
    match cases {
        None => Vec::new(alloc),
        Some(cases) => cases,
    }
}

/// Takes the numbers of a diagram out, and puts them back with one more.
fn add_branch(
    alloc: Global,
    branches: &mut Branches,
    diagram: u32,
    number: usize,
) -> Result<(), AllocError>
    ensures { OnOk result ((d : ℕ) → known.cases_of branches.new d ≡ known.cases_of branches.old d ++ (if diagram == d then number ∷ [] else [])) }
{
    let mut cases = numbers_or_none(alloc, branches.remove(&diagram));
    cases.push(number)?;
    branches.insert(diagram, cases)?;
    Ok(())
}

fn add_branches<'m>(
    alloc: Global,
    branches: &mut Branches,
    number: usize,
    arms: &[Arm<'m>],
) -> Result<(), AllocError>
    ensures { OnOk result ((d : ℕ) → known.cases_of branches.new d ≡ known.cases_of branches.old d ++ known.case_among d number (map seen_arm arms.now)) }
{
    for arm in arms {
        add_branch(alloc, branches, arm.body, number)?;
    }
    Ok(())
}

impl<'a> WireTypes<'a> {
    /// Nothing is known.
    pub fn new(alloc: Global) -> WireTypes<'a>
        ensures none { (d : ℕ) (name : List ℕ) → types_of result d name ≡ None }
        ensures indexed { IsIndexed result }
    {
        WireTypes {
            own: BTreeMap::new(alloc),
            cases: Vec::new(alloc),
            branches: BTreeMap::new(alloc),
        }
    }

    fn get_in_branch(&self, diagram: u32, name: &'a [u8]) -> Option<&Ty>
        ensures { option_copied result ≡ known.first_type self.now.cases.items (known.cases_of self.now.branches diagram) name.now }
    {
        match self.branches.get(&diagram) {
            None => None,
            Some(cases) => first_type(self.cases.as_slice(), cases.as_slice(), name),
        }
    }

    /// The type of a name in a diagram, where it is known.
    pub fn get(&self, diagram: u32, name: &'a [u8]) -> Option<&Ty>
        ensures { option_copied result ≡ types_of self.now diagram name.now }
    {
        match self.own.get(&(diagram, name)) {
            None => self.get_in_branch(diagram, name),
            Some(ty) => Some(ty),
        }
    }

    /// Keeps the type of a name in a diagram.
    pub fn insert(&mut self, diagram: u32, name: &'a [u8], ty: Ty) -> Result<(), AllocError>
        ensures types { OnOk result ((d : ℕ) (other : List ℕ) → types_of self.new d other ≡ (if (diagram == d) && bytes_eq name.now other then Some ty else types_of self.old d other)) }
        ensures indexed { IsIndexed self.old → IsIndexed self.new }
    {
        self.own.insert((diagram, name), ty)?;
        Ok(())
    }

    /// Keeps what the tunnels of a case give in each of its branches. A type that is known already
    /// stays.
    pub fn insert_in_branches(
        &mut self,
        alloc: Global,
        scope: Scope<'a>,
        arms: &[Arm<'a>],
    ) -> Result<(), AllocError>
        requires { IsIndexed self.now }
        ensures types { OnOk result ((d : ℕ) (name : List ℕ) → types_of self.new d name ≡ option_or (types_of self.old d name) (if known.is_branch d (map seen_arm arms.now) then found scope.entry name else None)) }
        ensures indexed { OnOk result (IsIndexed self.new) }
    {
        let number = self.cases.len();
        self.cases.push(scope)?;
        add_branches(alloc, &mut self.branches, number, arms)?;
        Ok(())
    }
}

/// The type of what stands at an operand in a diagram, where it is known.
pub fn wire_type<'t, 'm>(types: &'t WireTypes<'m>, diagram: u32, wire: &'m Wire) -> Option<&'t Ty>
    ensures { option_copied result ≡ spec.wire_type (types_of types.now) diagram wire.now }
{
    match wire {
        None => None,
        Some(name) => types.get(diagram, name.as_slice()),
    }
}

/// The type of what stands at an operand that some forms of a line have, where it is known.
pub fn optional_type<'t, 'm>(
    types: &'t WireTypes<'m>,
    diagram: u32,
    wire: Option<&'m Wire>,
) -> Option<&'t Ty>
    ensures { option_copied result ≡ spec.wire_type (types_of types.now) diagram (spec.or_unwired (option_map (λ w. w.now) wire.entry)) }
{
    match wire {
        None => None,
        Some(wire) => wire_type(types, diagram, wire),
    }
}

/// The type of what stands at an operand, by its number from 0, where it is known.
pub fn type_at<'t, 'm>(
    types: &'t WireTypes<'m>,
    diagram: u32,
    wires: &'m [Wire],
    k: usize,
) -> Option<&'t Ty>
    ensures { option_copied result ≡ spec.wire_type (types_of types.now) diagram (spec.wire_at wires.now k) }
{
    match wires.get(k) {
        None => None,
        Some(wire) => wire_type(types, diagram, wire),
    }
}
