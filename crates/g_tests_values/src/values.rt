//! Values and lists of them.

use crate::types::cluster;
use g_lists::Boxed;
use g_types::{Bytes, Rep, Ty, type_text};
use g_values::{
    Copies, Num, NumArr, Value, ValueList, coerce, copy, default_of, is_buffered, type_of, types_of,
};
use std::test::Fail;

#[test]
fn a_default_has_its_type(rt: HostRuntime) -> Result<(), Fail> {
    let alloc = rt.alloc();
    let value = default_of(alloc, &cluster(alloc)?)?;
    let text = type_text(alloc, &type_of(alloc, &value)?)?;
    assert_eq!(rt;
        text.as_slice(),
        b"{u8, [i16], str, [{bool}], ref(str)}".as_slice()
    );
    assert!(rt; is_buffered(&value));
    Ok(())
}

#[test]
fn copies_of_buffers_are_counted(rt: HostRuntime) -> Result<(), Fail> {
    let alloc = rt.alloc();
    let mut copies = Copies { n: 0 };
    let text = Value::Str(Bytes::from_slice(alloc, b"ab")?);
    match &copy(alloc, &text, &mut copies)? {
        Value::Str(again) => assert_eq!(rt; again.as_slice(), b"ab".as_slice()),
        _ => assert!(rt; false),
    }
    assert_eq!(rt; copies.n, 1);
    Ok(())
}

#[test]
fn each_number_of_an_array_is_coerced(rt: HostRuntime) -> Result<(), Fail> {
    let alloc = rt.alloc();
    let mut copies = Copies { n: 0 };
    let mut xs = NumArr::new(alloc, Rep::I32);
    xs.push(Num::wrapped(Rep::I32, 300))?;
    xs.push(Num::wrapped(Rep::I32, -1))?;
    let again = xs.copy(alloc, &mut copies)?;
    assert_eq!(rt; (again.rep(), again.len(), copies.n), (Rep::I32, 2, 1));
    let ty = Ty::Arr(Boxed::new(alloc, Ty::Num(Rep::U8))?);
    match &coerce(Value::Nums(again), &ty) {
        Value::Nums(narrow) => assert_eq!(rt; narrow.words.as_slice(), [44, 255].as_slice()),
        _ => assert!(rt; false),
    }
    Ok(())
}

#[test]
fn a_list_keeps_its_order(rt: HostRuntime) -> Result<(), Fail> {
    let alloc = rt.alloc();
    let mut list = ValueList::new(alloc);
    list.push(Value::Bool(true))?;
    list.push(Value::Num(Num::wrapped(Rep::I8, 128)))?;
    assert_eq!(rt; list.len(), 2);
    match &list.take(1) {
        Value::Num(x) => assert_eq!(rt; x.n, -128),
        _ => assert!(rt; false),
    }
    let list = ValueList::from_list(list.into_list());
    assert_eq!(rt; types_of(alloc, list.as_slice())?.len(), 2);
    match list.as_slice() {
        [Value::Bool(first), Value::Bool(left)] => assert!(rt; *first && !*left),
        _ => assert!(rt; false),
    }
    Ok(())
}
