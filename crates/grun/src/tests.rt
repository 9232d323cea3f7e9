//! Whole calls, from words and bytes to the text that is written.

use crate::call::grun_call;
use g_io::{MemorySink, MemorySource};
use g_types::{Bytes, CallList};
use std::alloc::AllocError;
use std::test::Fail;

const ADD: &str =
    "glisting 1\nvi Main nonreentrant same\n  control a i32 -> a\n  control b i32 -> b\n  indicator r i32 <- s\n  add a b -> s\nend\n";

const SPELLED: &str =
    "glisting 01 # the first version\n\nvi Main\r\ncontrol a i32->a # one wire\nindicator r i32 <- a\nend";

const PRINTED: &str =
    "glisting 1\nvi Main nonreentrant same\n  control a i32 -> a\n  indicator r i32 <- a\nend\n";

const OPEN: &str = "glisting 1\nvi Main\n  control a i32 ->\nend\n";

const LOOSE: &str = "glisting 1\nvi Main\ncontrol a u8 -> a\nindicator r u8 <- _\nend\n";

const NARROW: &str =
    "glisting 1\nvi Main\ncontrol a u8 -> a\nindicator r u8 <- n\ninc a -> n\nend\n";

const MIXED: &str =
    "glisting 1\nvi Main\ncontrol a i32 -> a\ncontrol b u32 -> b\nindicator r u8 <- s\nindicator t bool <- f\nadd a b -> s\nconst bool TRUE -> f\nend\n";

const TRUTHS: &str =
    "glisting 1\nvi Main\ncontrol a bool -> a\nindicator r bool <- n\ninc a -> n\nend\n";

const WIDE: &str = "glisting 1\nvi Main\nindicator r u8 <- k\nconst u8 256 -> k\nend\n";

const OWN: &str = "glisting 1\nvi Main\ncontrol a i32 = 5 -> a\nindicator r i32 <- a\nend\n";

const ARRAYS: &str =
    "glisting 1\nvi Main\nindicator n i32 <- n\nconst u8 0 -> e\nconst i32 5000 -> k\ninitialize e k -> a\narray_size a -> n\nend\n";

const UNCOVERED: &str =
    "glisting 1\nvi Main\ncontrol a i32 -> a\nindicator r i32 <- r\ncase a\nresult r\nwhen 0\ngive v\nconst i32 5 -> v\nend\nend\n";

const CASE: &str =
    "glisting 1\nvi Main\ncontrol a bool -> a\nindicator r i32 <- r\ncase a\nresult r\nwhen FALSE\ngive v\nconst i32 5 -> v\nwhen TRUE\ngive v\nconst i32 6 -> v\nend\nend\n";

const SUM: &str =
    "glisting 1\nvi Main\ncontrol n i32 -> n\nindicator total i32 <- total\nindicator squares [i32] <- squares\nconst i32 0 -> zero\nfor n -> i\nregister zero -> sum | more -> total\ngather square -> squares\ndo\ninc i -> k\nadd sum k -> more\nmul k k -> square\nend\nend\n";

const ENDLESS: &str =
    "glisting 1\nvi Main\nindicator k i32 <- k\nwhile stop -> i\nlast i -> k\ndo\nconst bool FALSE -> stop\nend\nend\n";

const QUEUE: &str =
    "glisting 1\nvi Main\ncontrol n i32 -> n\nindicator total i32 <- total\nobtain \"numbers\" 2 i32 -> q\nconst i32 0 -> zero\nfor n -> i\ntunnel q -> to\ndo\nenqueue to i -> _\nend\nfor n -> _\ntunnel q -> from\nregister zero -> sum | more -> total\ndo\ndequeue from -> item _\nadd sum item -> more\nend\nend\n";

const STALLED: &str =
    "glisting 1\nvi Main\nindicator v i32 <- v\nobtain \"orders\" -1 i32 -> q\ndequeue q -> v _\nend\n";

const CALLS: &str =
    "glisting 1\nvi Main\ncontrol x i32 -> x\nindicator twice i32 <- a\nindicator seven i32 <- b\nconst i32 7 -> seven\ncall Scaled x _ -> a\ncall Scaled x seven -> b\nend\nvi Scaled preallocated same\ncontrol value i32 -> value\ncontrol scale i32 = 2 -> scale\nindicator result i32 <- result\nmul value scale -> result\nend\n";

const BROKEN: &str =
    "glisting 1\nvi Main nonreentrant same\n  control a i32 -> a\n  indicator r i32 <- w\n  indicator s i32 <- t\n  add a w -> w\nend\n";

const ENDS: &str =
    "glisting 1\nvi Main nonreentrant same\n  control a i32 -> a\n  indicator r i32 <- p\n  indicator s i32 <- d\n  const i32 -2147483648 -> k\n  sub k a -> d\n  mul a a -> p\nend\n";

fn words(rt: &HostRuntime, line: &str) -> Result<Vec<String>, AllocError> {
    let mut words = Vec::new(rt.alloc());
    for word in line.split(' ') {
        words.push(String::from_str(rt.alloc(), word)?)?;
    }
    Ok(words)
}

fn calls(rt: &HostRuntime, fails: &[u64]) -> Result<CallList, AllocError> {
    CallList::from_slice(rt.alloc(), fails)
}

/// Makes the call with a source that fails at these calls, and a sink that fails at those; compares
/// the status, what was written, and whether there is a trace: a run that comes to its end, stalls or spends
/// its limit has one, and no other call here.
fn answers(
    rt: &HostRuntime,
    call: (&str, &str),
    fails: (&[u64], &[u64]),
    wanted: (u8, &str),
) -> Result<bool, AllocError> {
    let words = words(rt, call.0)?;
    let bytes = Bytes::from_slice(rt.alloc(), call.1.as_bytes())?;
    let mut source = MemorySource::new(bytes, 64, calls(rt, fails.0)?);
    let room = Bytes::from_vec(vec![in rt.alloc(); b'.'; 128]?);
    let mut sink = MemorySink::new(16, calls(rt, fails.1)?, room);
    let outcome = grun_call(rt.alloc(), &words, &mut source, &mut sink);
    let at_rest = wanted.0 == 0 || wanted.0 == 5 || wanted.0 == 6;
    let fired = at_rest && call.0.starts_with("run ");
    Ok(
        outcome.status == wanted.0
            && sink.written() == wanted.1.as_bytes()
            && outcome.trace.is_some() == fired,
    )
}

#[test]
fn answers_each_call(rt: HostRuntime) -> Result<(), Fail> {
    let no: &[u64] = &[];
    let cases = [
        (("run Main a=2 b=3", ADD), (0, "r = 5\n")),
        (("run Main", ADD), (0, "r = 0\n")),
        (("run Main a=2147483647 b=1", ADD), (0, "r = -2147483648\n")),
        (("run Main a=1", ENDS), (0, "r = 1\ns = 2147483647\n")),
        (("run Main a= +007", ADD), (1, "usage at word 4\n")),
        (("run Main b=007", ADD), (0, "r = 7\n")),
        (("run Main a=1 b", ADD), (1, "usage at word 4\n")),
        (("fly", ADD), (1, "usage at word 1\n")),
        (("run", ADD), (1, "usage at word 2\n")),
        (("run Main a=4", SPELLED), (0, "r = 4\n")),
        (("run Main a=1", OPEN), (2, "syntax at 3:19\n")),
        (("run Main", ""), (2, "syntax at 1:1\n")),
        (("print", SPELLED), (0, PRINTED)),
        (("print", OPEN), (2, "syntax at 3:19\n")),
        (("print x", ADD), (1, "usage at word 2\n")),
        (("run Other c=1", ADD), (3, "Other:0.0 rule 9\n")),
        (("run Main a=1", LOOSE), (3, "Main:1.1 rule 3\n")),
        (("run Main a=255", NARROW), (0, "r = 0\n")),
        (("run Main a=256", NARROW), (4, "control at word 3\n")),
        (("run Main a=-1 b=1", MIXED), (0, "r = 0\nt = TRUE\n")),
        (("run Main a=255 b=2", MIXED), (0, "r = 1\nt = TRUE\n")),
        (("run Main a=1", TRUTHS), (3, "Main:3.1 rule 16\n")),
        (("run Main", WIDE), (3, "Main:2.0 rule 15\n")),
        (("run Main", OWN), (0, "r = 5\n")),
        (("run Main", ARRAYS), (0, "n = 5000\n")),
        (("run Main c=1", CASE), (4, "control at word 3\n")),
        (("run Main a=TRUE", CASE), (0, "r = 6\n")),
        (("check Main", CASE), (0, "ok\n")),
        (("check Main", UNCOVERED), (3, "Main:3.0 rule 18\n")),
        (("check Other", ADD), (3, "Other:0.0 rule 9\n")),
        (
            ("run Main c=1", BROKEN),
            (3, "Main:3.1 rule 1\nMain:4.0 rule 6\n"),
        ),
        (("run Main c=1", ADD), (4, "control at word 3\n")),
        (("run Main a=1 a=1", ADD), (4, "control at word 4\n")),
        (("run Main a=2147483648", ADD), (4, "control at word 3\n")),
    ];
    for (call, wanted) in cases {
        assert_eq!(rt; answers(&rt, call, (no, no), wanted)?, true);
    }
    Ok(())
}

#[test]
fn runs_structures(rt: HostRuntime) -> Result<(), Fail> {
    let no: &[u64] = &[];
    let cases = [
        (
            ("run Main n=4", SUM),
            (0, "total = 10\nsquares = [1, 4, 9, 16]\n"),
        ),
        (("run Main n=0", SUM), (0, "total = 0\nsquares = []\n")),
        (("run Main n=5", QUEUE), (0, "total = 10\n")),
        (("run Main x=5", CALLS), (0, "twice = 10\nseven = 35\n")),
        (("run Main", STALLED), (5, "v = 0\nstalled\nwaiting 0 3\n")),
        (
            ("run Main --iterations 10", ENDLESS),
            (6, "k = 0\nspent 10\n"),
        ),
    ];
    for (call, wanted) in cases {
        assert_eq!(rt; answers(&rt, call, (no, no), wanted)?, true);
    }
    Ok(())
}

#[test]
fn tells_faults(rt: HostRuntime) -> Result<(), Fail> {
    let no: &[u64] = &[];
    let call = ("run Main a=1 c=1", ADD);
    assert_eq!(rt; answers(&rt, call, (&[1], no), (7, "read fault\n"))?, true);
    assert_eq!(rt;
        answers(&rt, call, (no, &[1]), (8, "control at word "))?,
        true
    );
    Ok(())
}

/// The panel of the listings of which the nodes alone are told, from line 4 on.
const PANEL: &str =
    "glisting 1\nvi Main\ncontrol a i32 -> a\nindicator r i32 <- r\nindicator s i32 <- s\n";

#[test]
fn checks_types(rt: HostRuntime) -> Result<(), Fail> {
    let no: &[u64] = &[];
    let cases = [
        ("add a a -> r\ninc r -> s\n", 0, "ok\n"),
        // a truth for a number; a number for a text, so that `s` has no type
        (
            "eq a a -> r\nstr_len a -> s\n",
            3,
            "Main:2.1 rule 17\nMain:5.1 rule 16\n",
        ),
        // an array of one type gives its element to a node before it
        (
            "inc e -> r\nindex_array v a -> e\ninitialize a a -> v\ninc a -> s\n",
            0,
            "ok\n",
        ),
        // a value of another type for a constant, and a text for a number
        (
            "const i32 TRUE -> r\nconst str \"1\" -> s\ninc a -> _\n",
            3,
            "Main:3.1 rule 17\nMain:4.0 rule 15\n",
        ),
    ];
    for (nodes, status, wanted) in cases {
        let listing = format!(in rt.alloc(); "{PANEL}{nodes}end\n")?;
        let call = ("check Main", listing.as_str());
        assert_eq!(rt; answers(&rt, call, (no, no), (status, wanted))?, true);
    }
    Ok(())
}
