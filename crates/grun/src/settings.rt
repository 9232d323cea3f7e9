//! What settings say of controls.

ghost use Rattle.std.specs.Prelude.{◌≡◌, ℕ, List as Row, [], ◌∷◌, ◌++◌, IfOk, OnOk, MatchOption};
ghost use Rattle.std.specs.Option.{option_copied};
ghost use Rattle.g_values.specs.declared.value.Value.{Value as Item};
ghost use Rattle.g_valtext.specs.Spellings.{IsSpelling};
ghost use Rattle.g_frames.specs.Panels.{default_of};
ghost use Rattle.grun.specs.Settings.{controls, control_values, find, IsValueFor, item_values, value_or};
ghost use Rattle.grun.specs.Views.{seen_control, seen_controls, types_in, values_in};
ghost use Rattle.grun.specs.GivenViews.{Tells};

use g_diagram::{Lit, PanelItem};
use g_line::Setting;
use g_literals::literal_value;
use g_types::Ty;
use g_valtext::{ValueRefused, read_value};
use g_values::{Copies, Value, copy, default_of};
use indexmap::IndexMap;
use std::alloc::{AllocError, Global};

/// A control's name and type.
#[derive(Clone, Copy)]
pub(crate) struct Control<'a> {
    pub name: &'a [u8],
    pub ty: &'a Ty,
}

/// The controls, in listing order.
pub(crate) fn controls(alloc: Global, panel: &[PanelItem]) -> Result<Vec<Control<'_>>, AllocError>
    ensures { IfOk result (λ all. seen_controls all.items ≡ controls panel.now) }
{
    let mut all = Vec::new(alloc);
    for item in panel {
        push_control(&mut all, item)?;
    }
    Ok(all)
}

fn push_control<'a>(all: &mut Vec<Control<'a>>, item: &'a PanelItem) -> Result<(), AllocError>
    ensures { OnOk result (seen_controls all.new.items ≡ seen_controls all.old.items ++ controls (item.entry.now ∷ [])) }
{
    let PanelItem::Control { name, ty, .. } = item else {
        return Ok(());
    };
    all.push(Control {
        name: name.as_slice(),
        ty,
    })?;
    Ok(())
}

/// The types of controls, by their names.
type Types<'a> = IndexMap<&'a [u8], &'a Ty>;

/// The first control of a name stays.
fn add_type<'a>(types: &mut Types<'a>, control: Control<'a>) -> Result<(), AllocError>
    ensures { OnOk result ((name : Row ℕ) → find name (types_in types.new.entries) ≡ find name (types_in types.old.entries ++ seen_control control.entry ∷ [])) }
{
    if types.get(&control.name).is_some() {
        return Ok(());
    }
    types.insert(control.name, control.ty)?;
    Ok(())
}

fn types_of<'a>(alloc: Global, controls: &[Control<'a>]) -> Result<Types<'a>, AllocError>
    ensures { IfOk result (λ types. (name : Row ℕ) → find name (types_in types.entries) ≡ find name (seen_controls controls.now)) }
{
    let mut types: Types<'a> = IndexMap::new(alloc);
    for control in controls {
        add_type(&mut types, *control)?;
    }
    Ok(types)
}

/// What the settings give: the number of the first wrong one's word, from 1, or the values of the
/// controls that they name.
pub(crate) enum Given<'a> {
    Wrong(u64),
    Right(IndexMap<&'a [u8], Value>),
}

/// The value of a type that a setting's text spells.
fn spelled_value(alloc: Global, ty: &Ty, text: &[u8]) -> Result<Option<Value>, AllocError>
    ensures { IfOk result (λ read. MatchOption read ((v : Item) → IsSpelling ty.now text.now v → ⊥) (IsSpelling ty.now text.now)) }
{
    match read_value(alloc, ty, text) {
        Ok(value) => Ok(Some(value)),
        Err(ValueRefused::NotOfType(_)) => Ok(None),
        Err(ValueRefused::Memory(error)) => Err(error),
    }
}

/// The value that a setting spells for the control that it names.
fn value_for(
    alloc: Global,
    types: &Types<'_>,
    setting: &Setting,
) -> Result<Option<Value>, AllocError>
    ensures { IfOk result (λ read. MatchOption read ((v : Item) → IsValueFor (types_in types.now.entries) setting.now v → ⊥) (IsValueFor (types_in types.now.entries) setting.now)) }
{
    match types.get(&setting.name.as_slice()) {
        Some(ty) => spelled_value(alloc, *ty, setting.text.as_slice()),
        None => Ok(None),
    }
}

/// Goes through the settings, one after the other.
pub(crate) fn go_through<'a>(
    alloc: Global,
    controls: &[Control<'a>],
    settings: &'a [Setting],
) -> Result<Given<'a>, AllocError>
    ensures { IfOk result (Tells (seen_controls controls.now) settings.now) }
{
    let types = types_of(alloc, controls)?;
    let mut values: IndexMap<&'a [u8], Value> = IndexMap::new(alloc);
    for place in 0..settings.len() {
        let setting = &settings[place];
        let Some(value) = value_for(alloc, &types, setting)? else {
            return Ok(Given::Wrong(setting.word));
        };
        if values.insert(setting.name.as_slice(), value)?.is_some() {
            return Ok(Given::Wrong(setting.word));
        }
    }
    Ok(Given::Right(values))
}

/// The value of a control that no setting names: the literal on its line, or the default of its type.
fn own_value(alloc: Global, ty: &Ty, literal: Option<&Lit>) -> Result<Value, AllocError>
    ensures { IfOk result (λ v. v ≡ default_of (option_copied literal.entry) ty.now) }
{
    match literal {
        Some(literal) => literal_value(alloc, literal, ty),
        None => default_of(alloc, ty),
    }
}

fn copy_or_own(
    alloc: Global,
    ty: &Ty,
    literal: Option<&Lit>,
    value: Option<&Value>,
) -> Result<Value, AllocError>
    ensures { IfOk result (λ v. v ≡ value_or (default_of (option_copied literal.entry) ty.now) (option_copied value.entry)) }
{
    match value {
        Some(value) => copy(alloc, value, &mut Copies { n: 0 }),
        None => own_value(alloc, ty, literal),
    }
}

/// The value of a control: what a setting gave it, or its own.
fn value_of<'a>(
    alloc: Global,
    given: &IndexMap<&'a [u8], Value>,
    name: &'a [u8],
    ty: &Ty,
    literal: Option<&Lit>,
) -> Result<Value, AllocError>
    ensures { IfOk result (λ v. v ≡ value_or (default_of (option_copied literal.entry) ty.now) (find name.now (values_in given.now.entries))) }
{
    copy_or_own(alloc, ty, literal, given.get(&name))
}

fn push_value<'a>(
    alloc: Global,
    all: &mut Vec<Value>,
    given: &IndexMap<&'a [u8], Value>,
    item: &'a PanelItem,
) -> Result<(), AllocError>
    ensures { OnOk result (all.new.items ≡ all.old.items ++ item_values (values_in given.now.entries) item.now) }
{
    let PanelItem::Control {
        name,
        ty,
        default,
        ..
    } = item
    else {
        return Ok(());
    };
    all.push(value_of(alloc, given, name.as_slice(), ty, default.as_ref())?)?;
    Ok(())
}

/// The values of the controls, in listing order.
pub(crate) fn values<'a>(
    alloc: Global,
    panel: &'a [PanelItem],
    given: &IndexMap<&'a [u8], Value>,
) -> Result<Vec<Value>, AllocError>
    ensures { IfOk result (λ values. values.items ≡ control_values panel.now (values_in given.now.entries)) }
{
    let mut values = Vec::new(alloc);
    for item in panel {
        push_value(alloc, &mut values, given, item)?;
    }
    Ok(values)
}
