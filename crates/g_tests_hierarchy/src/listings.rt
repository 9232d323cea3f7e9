//! Listings: what is read is printed as written here, with each form of line, and hostile listings are
//! refused at these places.

use g_listing::{ListingRefused, read_listing};
use g_print::print_listing;
use g_tokens::Spot;
use std::alloc::Global;
use std::test::Fail;

/// Listings as someone may write them, and their canonical texts.
static READ: [(&[u8], &[u8]); 6] = [
    (
        b"glisting 01 # a comment\r\n\r\n vi M pool 064 daq\n control a i32 required = -05 -> x\n\tcontrol b [{bool,str}] = [{TRUE,\"#\"},{FALSE,\"\\x41\\n\"}] -> _\n control c u8 -> y\n indicator r ref(queue(u8)) <- _\nend\nvi N ui\nend",
        b"glisting 1
vi M pool 64 daq
  control a i32 required = -5 -> x
  control b [{bool, str}] = [{TRUE, \"#\"}, {FALSE, \"A\\x0A\"}] -> _
  control c u8 -> y
  indicator r ref(queue(u8)) <- _
end
vi N nonreentrant ui
end
",
    ),
    (
        b"glisting 1\nvi M preallocated\nconst {i8,[u64]} {1,[2,3]}->w\nconst queue(i8) null -> q\nconst [i8] [ ] -> e\nadd a b -> c\nget -0 c -> e\nset 63 c e -> d\nobtain \"q\" -1 i32 -> q\nenqueue q v -> code\nread a -> b\nwrite a b\ncall N a _ -> b _\nend\n",
        b"glisting 1
vi M preallocated same
  const {i8, [u64]} {1, [2, 3]} -> w
  const queue(i8) null -> q
  const [i8] [] -> e
  add a b -> c
  get 0 c -> e
  set 63 c e -> d
  obtain \"q\" -1 i32 -> q
  enqueue q v -> code
  read a -> b
  write a b
  call N a _ -> b _
end
",
    ),
    (
        b"glisting 1\nvi M\nfor n -> i\nindex a -> b\ntunnel a -> b\nregister a -> b | c -> d\nregister _ i32 -> b | c -> d\nlast a -> b\ngather a -> b\ndo\nwhile s -> _\ndo\nend\nend\nend\n",
        b"glisting 1
vi M nonreentrant same
  for n -> i
    index a -> b
    tunnel a -> b
    register a -> b | c -> d
    register _ i32 -> b | c -> d
    last a -> b
    gather a -> b
  do
    while s -> _
    do
    end
  end
end
",
    ),
    (
        b"glisting 1\nvi M\ncase s\ntunnel a -> b\nresult r default\nresult _\nwhen 1,-2..3,TRUE,\"t\"\ngive a _\nwhen default\ngive _ b\nend\nend\n",
        b"glisting 1
vi M nonreentrant same
  case s
    tunnel a -> b
    result r default
    result _
  when 1, -2..3, TRUE, \"t\"
    give a _
  when default
    give _ b
  end
end
",
    ),
    (
        b"glisting 1\nvi M\nsequence\nframe\ntunnel a -> b\ndo\nframe\ncarry a -> b\nlast a -> b\ndo\nend\nend\n",
        b"glisting 1
vi M nonreentrant same
  sequence
  frame
    tunnel a -> b
  do
  frame
    carry a -> b
    last a -> b
  do
  end
end
",
    ),
    (
        b"glisting 1\nvi M\ninplace\ntunnel a -> b\nlast a -> b\nref a -> b | c -> d e\nindex a i -> b | c -> d\nfield 0 a -> b | c -> d\ndo\nend\nend\n",
        b"glisting 1
vi M nonreentrant same
  inplace
    tunnel a -> b
    last a -> b
    ref a -> b | c -> d e
    index a i -> b | c -> d
    field 0 a -> b | c -> d
  do
  end
end
",
    ),
];

/// Listings that are refused, with the line and the column.
static REFUSED: [(&[u8], u32, u32); 16] = [
    (b"", 1, 1),
    (b"glisting 1\n", 2, 1),
    (b"glisting 2\n", 1, 10),
    (b"glisting 1\r", 1, 12),
    (b"glisting 1\nvi M\rx\n", 2, 5),
    (b"glisting 1\nvi \xc3\x84\n", 2, 4),
    (b"glisting 1\nvi M ui pool 2\nend\n", 2, 9),
    (
        b"glisting 1\nvi M\ncontrol c ref(ref(ref(ref(ref(ref(ref(ref(i8))))))))\n",
        3,
        39,
    ),
    (b"glisting 1\nvi M\nconst str \"abc -> w\nend\n", 3, 11),
    (b"glisting 1\nvi M\nconst [i32] [[1]] -> w\nend\n", 3, 14),
    (b"glisting 1\nvi M\nobtain \"q\" 0 i32 -> q\nend\n", 3, 12),
    (
        b"glisting 1\nvi M\nwhile s -> i\nindex a -> b\ndo\nend\nend\n",
        4,
        1,
    ),
    (
        b"glisting 1\nvi M\ncase s\nresult r\nresult q\nwhen 1\ngive a b c\nend\nend\n",
        7,
        10,
    ),
    (
        b"glisting 1\nvi M\nsequence\nframe\ncarry a -> b\ndo\nend\nend\n",
        5,
        1,
    ),
    (b"glisting 1\nvi M\nfor n -> i\ndo\n", 5, 1),
    (b"glisting 1\nvi M\nend\nx\n", 4, 1),
];

/// Whether the canonical text of a listing is this one.
fn prints(alloc: Global, listing: &[u8], canonical: &[u8]) -> bool {
    if listing.len() > 10000 {
        return false;
    }
    let Ok(hierarchy) = read_listing(alloc, listing) else {
        return false;
    };
    match print_listing(alloc, &hierarchy) {
        Ok(text) => text.as_slice() == canonical,
        Err(_) => false,
    }
}

/// The place at which a listing is refused.
fn place(alloc: Global, listing: &[u8]) -> Option<Spot> {
    if listing.len() > 10000 {
        return None;
    }
    match read_listing(alloc, listing) {
        Err(ListingRefused::Syntax(spot)) => Some(spot),
        _ => None,
    }
}

#[test]
fn listings_are_read_and_printed(rt: HostRuntime) -> Result<(), Fail> {
    for (listing, canonical) in &READ {
        assert!(rt; prints(rt.alloc(), listing, canonical));
    }
    Ok(())
}

#[test]
fn listings_are_refused(rt: HostRuntime) -> Result<(), Fail> {
    for (listing, line, column) in &REFUSED {
        let spot = Spot {
            line: *line,
            column: *column,
        };
        assert_eq!(rt; place(rt.alloc(), listing), Some(spot));
    }
    Ok(())
}
