//! Types: copied, compared and written.

use g_lists::{Boxed, List};
use g_types::{Rep, Ty, TyList, assignable, copy, copy_all, fits, same, type_text};
use std::alloc::{AllocError, Global};
use std::test::Fail;

/// `{u8, [i16], str, [{bool}], ref(str)}`
pub fn cluster(alloc: Global) -> Result<Ty, AllocError> {
    let mut inner = TyList::new(alloc);
    inner.push(Ty::Bool)?;
    let mut parts = Vec::new(alloc);
    parts.push(Ty::Num(Rep::U8))?;
    parts.push(Ty::Arr(Boxed::new(alloc, Ty::Num(Rep::I16))?))?;
    parts.push(Ty::Str)?;
    parts.push(Ty::Arr(Boxed::new(alloc, Ty::Cluster(inner))?))?;
    parts.push(Ty::ValueRef(Boxed::new(alloc, Ty::Str)?))?;
    Ok(Ty::Cluster(List::from_vec(parts)))
}

#[test]
fn types_are_copied_and_written(rt: HostRuntime) -> Result<(), Fail> {
    let alloc = rt.alloc();
    let ty = cluster(alloc)?;
    let again = copy(alloc, &ty)?;
    let text = type_text(alloc, &again)?;
    assert_eq!(rt;
        text.as_slice(),
        b"{u8, [i16], str, [{bool}], ref(str)}".as_slice()
    );
    assert!(rt; same(&ty, &again) && fits(&ty, 4) && assignable(&ty, &again));
    assert_eq!(rt; copy_all(alloc, &[ty, again])?.len(), 2);
    Ok(())
}
