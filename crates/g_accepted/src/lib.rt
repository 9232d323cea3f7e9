//! That the program of a hierarchy in which nothing is broken is one that the firing machine can run.
#![tactic(auto)]

ghost use Rattle.g_accepted.specs.Laws.{AreAccepted};

/// Where the types, numbers and lines of a hierarchy are such as a listing can write and none of the
/// rules is broken, its program is accepted, whatever typing and order of linking it is made by: each
/// name that is read has a source and a type, what each node gives and takes fits these types, each
/// body in place can be worked out, and each data space has the queues, references, kept registers and
/// data spaces that its nodes name.
pub fn accepted_laws()
    ensures { AreAccepted }
{}
