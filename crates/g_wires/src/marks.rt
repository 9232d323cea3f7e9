//! Marks of wires, by their numbers.

ghost use Rattle.std.specs.Prelude.{◌≡◌};
ghost use Rattle.g_wires.specs.Marks.{is_marked, is_unmarked};

fn is_marked_at(marks: &[bool], wire: usize) -> bool
    ensures { result ≡ is_marked marks.now wire }
{
    match marks.get(wire) {
        None => false,
        Some(mark) => *mark,
    }
}

/// Whether a wire is there that isn't marked.
pub fn is_unmarked_at(marks: &[bool], wire: Option<usize>) -> bool
    ensures { result ≡ is_unmarked marks.now wire }
{
    match wire {
        None => false,
        Some(wire) => !is_marked_at(marks, wire),
    }
}
