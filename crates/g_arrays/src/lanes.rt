//! Eight words at a time.

ghost use Rattle.std.specs.Prelude.{◌≡◌, ◌+◌, ◌≤◌, length, map};
ghost use Rattle.std.specs.Simd.Lanes.{zip2, chunk, put_chunk};
ghost use Rattle.g_arrays.specs.Lanes.{with_word};
ghost use Rattle.g_prims_edits.specs.Words.{on_words, result_word};
ghost use Rattle.g_values.specs.Canonical.{canonical};

use g_prims_edits::Operator;
use g_types::Rep;
use std::simd::prelude::*;

fn on_lanes(operator: Operator, a: u64x8, b: u64x8) -> u64x8
    requires own { length a ≡ 8 }
    requires other { length b ≡ 8 }
    ensures { result ≡ zip2 (on_words operator) a b }
{
    match operator {
        Operator::Plus => a + b,
        Operator::Minus => a - b,
        Operator::Times => a * b,
        Operator::And => a & b,
        Operator::Or => a | b,
        Operator::Xor => a ^ b,
    }
}

fn wrapped_lanes(rep: Rep, a: u64x8) -> u64x8
    requires { length a ≡ 8 }
    ensures { result ≡ map (canonical rep) a }
{
    let half = u64x8::splat(rep.half());
    let mask = u64x8::splat(rep.mask());
    ((a + half) & mask) - half
}

/// What the operator gives, wrapped into the representation.
fn result_lanes(operator: Operator, rep: Rep, a: u64x8, b: u64x8) -> u64x8
    requires own { length a ≡ 8 }
    requires other { length b ≡ 8 }
    ensures { result ≡ zip2 (result_word operator rep) a b }
{
    wrapped_lanes(rep, on_lanes(operator, a, b))
}

/// The same for eight words at a place, each with the other word at its place.
pub fn zip_block(operator: Operator, rep: Rep, into: &mut [u64], other: &[u64], at: usize)
    requires own_room { at + 8 ≤ length into.old }
    requires other_room { at + 8 ≤ length other.now }
    ensures { into.new ≡ put_chunk at into.old (zip2 (result_word operator rep) (chunk at 8 into.old) (chunk at 8 other.now)) }
{
    let a = u64x8::from_slice(&into[at..]);
    let b = u64x8::from_slice(&other[at..]);
    result_lanes(operator, rep, a, b).copy_to_slice(&mut into[at..]);
}

fn with_lanes(operator: Operator, rep: Rep, before: bool, by: u64, a: u64x8) -> u64x8
    requires { length a ≡ 8 }
    ensures { result ≡ map (with_word operator rep before by) a }
{
    let by = u64x8::splat(by);
    if before {
        return result_lanes(operator, rep, by, a);
    }
    result_lanes(operator, rep, a, by)
}

/// The same for eight words at a place, each with one word before or after it.
pub fn each_block(operator: Operator, rep: Rep, before: bool, by: u64, into: &mut [u64], at: usize)
    requires { at + 8 ≤ length into.old }
    ensures { into.new ≡ put_chunk at into.old (map (with_word operator rep before by) (chunk at 8 into.old)) }
{
    let a = u64x8::from_slice(&into[at..]);
    with_lanes(operator, rep, before, by, a).copy_to_slice(&mut into[at..]);
}
