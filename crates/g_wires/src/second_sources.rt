//! Rule 2 over ports whose wires are numbers: a wire's sources after its first.

ghost use Rattle.std.specs.Prelude.{◌≡◌, ◌<◌, ◌++◌, ◌||◌, ℕ, length, IfOk, OnOk, All, Some};
ghost use Rattle.std.specs.List.{list_any};
ghost use Rattle.g_wires.specs.declared.coded.Coded.{Coded as TheCoded};
ghost use Rattle.g_wires.specs.Marks.{gives_before, is_lower, first_at, stands_before, follows_source, is_later_source, coded_breaks, WireBelow};

use crate::coded::{Coded, push_break};
use g_diagram::Break;
use std::alloc::{AllocError, Global};

/// The place of a wire's first source.
#[derive(Clone, Copy, Debug)]
pub struct First {
    pub line: u32,
    pub operand: u32,
}

fn stands_below(first: First, port: &Coded) -> bool
    ensures { result ≡ is_lower first.line first.operand port.now }
{
    if first.line < port.line {
        return true;
    }
    if first.line != port.line {
        return false;
    }
    first.operand < port.operand
}

fn place_of(port: &Coded) -> First
    ensures line { result.line ≡ port.now.line }
    ensures operand { result.operand ≡ port.now.operand }
{
    First {
        line: port.line,
        operand: port.operand,
    }
}

/// The earlier one of a place and a port's.
fn earlier(first: Option<First>, port: &Coded) -> First
    ensures { (c : TheCoded) → is_lower result.line result.operand c ≡ (stands_before first c || is_lower port.now.line port.now.operand c) }
{
    let Some(first) = first else {
        return place_of(port);
    };
    if stands_below(first, port) {
        return first;
    }
    place_of(port)
}

fn first_of(firsts: &[Option<First>], wire: usize) -> Option<First>
    ensures { result ≡ first_at firsts.now wire }
{
    match firsts.get(wire) {
        None => None,
        Some(first) => *first,
    }
}

fn keep_first(firsts: &mut [Option<First>], port: &Coded)
    requires { WireBelow (length firsts.old) port.now }
    ensures { (w : ℕ) → (c : TheCoded) → stands_before (first_at firsts.new w) c ≡ (stands_before (first_at firsts.old w) c || gives_before w c port.now) }
{
    if !port.is_source {
        return;
    }
    if let Some(wire) = port.wire {
        let first = earlier(first_of(firsts, wire), port);
        firsts[wire] = Some(first);
    }
}

/// Of each wire, the place of its first source.
fn first_sources(
    alloc: Global,
    count: usize,
    ports: &[Coded],
) -> Result<Vec<Option<First>>, AllocError>
    requires { All (WireBelow count) ports.now }
    ensures { IfOk result (λ firsts. (w : ℕ) → (c : TheCoded) → stands_before (first_at firsts.items w) c ≡ list_any (gives_before w c) ports.now) }
{
    let mut firsts = vec![in alloc; None; count]?;
    for port in ports {
        keep_first(firsts.as_mut_slice(), port);
    }
    Ok(firsts)
}

fn is_below_port(first: Option<First>, port: &Coded) -> bool
    ensures { result ≡ stands_before first port.now }
{
    match first {
        None => false,
        Some(first) => stands_below(first, port),
    }
}

fn is_repeated(firsts: &[Option<First>], port: &Coded) -> bool
    ensures { result ≡ follows_source firsts.now port.now }
{
    if !port.is_source {
        return false;
    }
    match port.wire {
        None => false,
        Some(wire) => is_below_port(first_of(firsts, wire), port),
    }
}

fn push_later(
    vi: u32,
    firsts: &[Option<First>],
    ports: &[Coded],
    breaks: &mut Vec<Break>,
) -> Result<(), AllocError>
    ensures { OnOk result (breaks.new.items ≡ breaks.old.items ++ coded_breaks vi 2 (follows_source firsts.now) ports.now) }
{
    for port in ports {
        if is_repeated(firsts, port) {
            push_break(vi, 2, port, breaks)?;
        }
    }
    Ok(())
}

/// Adds the breaks of rule 2: each source whose wire has a source before it.
pub fn push_repeated(
    alloc: Global,
    vi: u32,
    count: usize,
    ports: &[Coded],
    breaks: &mut Vec<Break>,
) -> Result<(), AllocError>
    requires { All (WireBelow count) ports.now }
    ensures { OnOk result (breaks.new.items ≡ breaks.old.items ++ coded_breaks vi 2 (is_later_source ports.now) ports.now) }
{
    let firsts = first_sources(alloc, count, ports)?;
    push_later(vi, firsts.as_slice(), ports, breaks)?;
    Ok(())
}
