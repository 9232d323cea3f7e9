//! The types of named sources, by their diagrams.

ghost use Rattle.std.specs.Prelude.{◌≡◌, ◌==◌, ◌&&◌, ℕ, List as TheList, if◌then◌else◌, Some, None, IfOk, OnOk};
ghost use Rattle.std.specs.Option.{option_or};
ghost use Rattle.std.specs.Str.{bytes_eq};
ghost use Rattle.g_infer.specs.Answer.{source_type};
ghost use Rattle.g_vi_tables.specs.Types.{named_type, own_type, scope_type};

use crate::scopes::add_name;
use g_infer::SourceType;
use g_types::Ty;
use g_vi_tables::Scope;
use std::alloc::{AllocError, Global};
use std::collections::BTreeMap;

/// The types of names, each in its diagram.
pub(crate) type Own<'m> = BTreeMap<u32, Scope<'m>>;

fn scope_or_none<'m>(alloc: Global, scope: Option<Scope<'m>>) -> Scope<'m>
    ensures { (name : TheList ℕ) → named_type result name ≡ scope_type scope.entry name }
{
    match scope {
        None => BTreeMap::new(alloc),
        Some(scope) => scope,
    }
}

/// Takes the names of a diagram out, and puts them back with one more.
fn add_source<'m>(
    alloc: Global,
    own: &mut Own<'m>,
    diagram: u32,
    name: &'m [u8],
    ty: &'m Ty,
) -> Result<(), AllocError>
    ensures { OnOk result ((d : ℕ) (other : TheList ℕ) → own_type own.new d other ≡ option_or (own_type own.old d other) (if (diagram == d) && bytes_eq name.now other then Some ty.now else None)) }
{
    let mut scope = scope_or_none(alloc, own.remove(&diagram));
    add_name(&mut scope, name, ty)?;
    own.insert(diagram, scope)?;
    Ok(())
}

/// The types of sources by their diagrams. Of two with one name in a diagram the first counts.
pub(crate) fn own_types<'m>(alloc: Global, sources: &'m [SourceType]) -> Result<Own<'m>, AllocError>
    ensures { IfOk result (λ own. (d : ℕ) (name : TheList ℕ) → own_type own d name ≡ source_type sources.now d name) }
{
    let mut own = BTreeMap::new(alloc);
    for source in sources {
        let name = source.name.as_slice();
        add_source(alloc, &mut own, source.diagram, name, &source.ty)?;
    }
    Ok(own)
}
