//! The stories.
use super::Step;
use super::written::Line;
use crate::walks::Ask;

const EMPTY: &[Line] = &[(b"", b"", false, b"")];

const OLD_KEYS: &[&[u8]] = &[b"foo\0", b"football\0"];

const OLD: &[Line] = &[
    (b"", b"", false, b"f"),
    (b"f", b"oo", false, b"\0t"),
    (b"foo\0", b"", true, b""),
    (b"foot", b"ball\0", true, b""),
];

/// `foo`, `fool` and `football`.
const BESIDE: &[Line] = &[
    (b"", b"", false, b"f"),
    (b"f", b"oo", false, b"\0lt"),
    (b"foo\0", b"", true, b""),
    (b"fool", b"\0", true, b""),
    (b"foot", b"ball\0", true, b""),
];

const FORKED_KEYS: &[&[u8]] = &[b"foo\0", b"football\0", b"foot\0"];

/// `foo`, `foot` and `football`, and paths that end within a node's prefix.
const FORKED: &[Line] = &[
    (b"", b"", false, b"f"),
    (b"f", b"oo", false, b"\0t"),
    (b"foo", b"oo", false, b"\0t"),
    (b"foo\0", b"", true, b""),
    (b"foot", b"", false, b"\0b"),
    (b"foot\0", b"", true, b""),
    (b"footb", b"all\0", true, b""),
    (b"footba", b"all\0", true, b""),
    (b"football\0", b"all\0", true, b""),
];

const FOO: &[Line] = &[(b"", b"", false, b"f"), (b"f", b"oo\0", true, b"")];

const WITHOUT_FOO: &[Line] = &[
    (b"", b"", false, b"f"),
    (b"f", b"oot", false, b"\0b"),
    (b"foot\0", b"", true, b""),
    (b"footb", b"all\0", true, b""),
];

const WITHOUT_FOOTBALL: &[Line] = &[
    (b"", b"", false, b"f"),
    (b"f", b"oo", false, b"\0t"),
    (b"foo\0", b"", true, b""),
    (b"foot", b"\0", true, b""),
];

/// All bytes in order.
pub static BYTES: [u8; 256] = *b"\
    \x00\x01\x02\x03\x04\x05\x06\x07\x08\x09\x0a\x0b\x0c\x0d\x0e\x0f\x10\x11\x12\x13\x14\x15\
    \x16\x17\x18\x19\x1a\x1b\x1c\x1d\x1e\x1f\x20\x21\x22\x23\x24\x25\x26\x27\x28\x29\x2a\x2b\
    \x2c\x2d\x2e\x2f\x30\x31\x32\x33\x34\x35\x36\x37\x38\x39\x3a\x3b\x3c\x3d\x3e\x3f\x40\x41\
    \x42\x43\x44\x45\x46\x47\x48\x49\x4a\x4b\x4c\x4d\x4e\x4f\x50\x51\x52\x53\x54\x55\x56\x57\
    \x58\x59\x5a\x5b\x5c\x5d\x5e\x5f\x60\x61\x62\x63\x64\x65\x66\x67\x68\x69\x6a\x6b\x6c\x6d\
    \x6e\x6f\x70\x71\x72\x73\x74\x75\x76\x77\x78\x79\x7a\x7b\x7c\x7d\x7e\x7f\x80\x81\x82\x83\
    \x84\x85\x86\x87\x88\x89\x8a\x8b\x8c\x8d\x8e\x8f\x90\x91\x92\x93\x94\x95\x96\x97\x98\x99\
    \x9a\x9b\x9c\x9d\x9e\x9f\xa0\xa1\xa2\xa3\xa4\xa5\xa6\xa7\xa8\xa9\xaa\xab\xac\xad\xae\xaf\
    \xb0\xb1\xb2\xb3\xb4\xb5\xb6\xb7\xb8\xb9\xba\xbb\xbc\xbd\xbe\xbf\xc0\xc1\xc2\xc3\xc4\xc5\
    \xc6\xc7\xc8\xc9\xca\xcb\xcc\xcd\xce\xcf\xd0\xd1\xd2\xd3\xd4\xd5\xd6\xd7\xd8\xd9\xda\xdb\
    \xdc\xdd\xde\xdf\xe0\xe1\xe2\xe3\xe4\xe5\xe6\xe7\xe8\xe9\xea\xeb\xec\xed\xee\xef\xf0\xf1\
    \xf2\xf3\xf4\xf5\xf6\xf7\xf8\xf9\xfa\xfb\xfc\xfd\xfe\xff";

/// Inserts into the tree of `foo` and `football`.
pub static INSERTS: [Step; 58] = [
    // the missing key goes beside both: their leaves stay, and the node above them is copied
    Step::PutAll(OLD_KEYS),
    Step::Begin,
    Step::Put(b"fool\0", 9),
    Step::Nodes(BESIDE),
    Step::Had(OLD),
    Step::End,
    Step::Watch(b"fool\0", true, true),
    Step::Watch(b"foo\0", false, false),
    Step::Watch(b"foo", true, true),
    Step::Watch(b"foot", false, false),
    Step::Listed(2),
    // the node of `football` is split
    Step::PutAll(OLD_KEYS),
    Step::Begin,
    Step::Put(b"foot\0", 9),
    Step::Nodes(FORKED),
    Step::Had(OLD),
    Step::End,
    Step::Watch(b"foot\0", true, true),
    Step::Watch(b"football\0", false, true),
    Step::Watch(b"foo\0", false, false),
    // a neighbour below the root
    Step::PutAll(OLD_KEYS),
    Step::Begin,
    Step::Put(b"n\0", 9),
    Step::Nodes(&[(b"", b"", false, b"fn"), (b"n", b"\0", true, b"")]),
    Step::Had(OLD),
    Step::End,
    Step::Watch(b"foo", false, false),
    Step::Watch(b"", true, true),
    // the leaf is replaced
    Step::PutAll(OLD_KEYS),
    Step::Begin,
    Step::Put(b"foo\0", 9),
    Step::Nodes(OLD),
    Step::Had(OLD),
    Step::End,
    Step::Watch(b"foo\0", true, true),
    Step::Listed(4),
    // an equal row fires too
    Step::PutAll(OLD_KEYS),
    Step::Begin,
    Step::Put(b"foo\0", 0),
    Step::Nodes(OLD),
    Step::Had(OLD),
    Step::End,
    Step::Watch(b"foo\0", true, true),
    Step::Listed(4),
    // a key that ends at the node above both, which has no leaf: they stay as they are
    Step::PutAll(OLD_KEYS),
    Step::Begin,
    Step::Put(b"foo", 9),
    Step::Nodes(&[(b"f", b"oo", true, b"\0t")]),
    Step::Had(OLD),
    Step::End,
    Step::Watch(b"foo", true, true),
    Step::Watch(b"foo\0", false, false),
    Step::Listed(2),
    // a leaf of which a tree was given keeps its row there
    Step::PutAll(OLD_KEYS),
    Step::Stand,
    Step::Put(b"foo\0", 9),
    Step::Stand,
    Step::End,
];

/// Keys that go.
pub static DELETES: [Step; 55] = [
    // the node above is merged with that of `foo`, whose leaf stays
    Step::PutAll(OLD_KEYS),
    Step::Begin,
    Step::Take(b"football\0"),
    Step::Nodes(FOO),
    Step::Had(OLD),
    Step::End,
    Step::Watch(b"foo\0", false, true),
    Step::Watch(b"football\0", true, true),
    Step::Listed(5),
    // a missing key takes nothing
    Step::PutAll(FORKED_KEYS),
    Step::Begin,
    Step::Take(b"foo"),
    Step::Take(b"g"),
    Step::Nodes(FORKED),
    Step::Had(FORKED),
    Step::End,
    Step::Listed(0),
    // the root is not merged
    Step::PutAll(&[b"ab", b"ac", b""]),
    Step::Begin,
    Step::Take(b"ac"),
    Step::Take(b""),
    Step::Nodes(&[(b"", b"", false, b"a"), (b"a", b"b", true, b"")]),
    Step::End,
    // a key comes and goes
    Step::Begin,
    Step::Put(b"ab", 3),
    Step::Put(b"b", 3),
    Step::TakeAll(b"a"),
    Step::Nodes(&[(b"", b"", false, b"b"), (b"b", b"", true, b"")]),
    Step::Had(EMPTY),
    Step::End,
    // cells that come and go within one transaction are in no notice
    Step::PutAll(OLD_KEYS),
    Step::Begin,
    Step::Put(b"fool\0", 9),
    Step::Put(b"fool\0", 8),
    Step::Take(b"missing\0"),
    Step::TakeAll(b"foot"),
    Step::Nodes(&[
        (b"f", b"oo", false, b"\0l"),
        (b"foo\0", b"", true, b""),
        (b"fool", b"\0", true, b""),
    ]),
    Step::Had(OLD),
    Step::End,
    Step::Listed(4),
    // no write
    Step::Begin,
    Step::Nodes(EMPTY),
    Step::Had(EMPTY),
    Step::End,
    Step::Listed(0),
    // edges stay in the order of their labels
    Step::Put(b"kb", 1),
    Step::Put(b"kd", 2),
    Step::Put(b"ka", 3),
    Step::Put(b"kc", 4),
    Step::Begin,
    Step::Nodes(&[(b"k", b"", false, b"abcd")]),
    Step::Take(b"kc"),
    Step::Nodes(&[(b"k", b"", false, b"abd")]),
    Step::Had(&[(b"k", b"", false, b"abcd")]),
    Step::End,
];

/// What a prefix takes from the tree of `foo`, `football` and `foot`.
pub static PREFIXES: [Step; 66] = [
    Step::PutAll(FORKED_KEYS),
    Step::Begin,
    Step::TakeAll(b""),
    Step::Nodes(EMPTY),
    Step::Had(FORKED),
    Step::End,
    Step::PutAll(FORKED_KEYS),
    Step::Begin,
    Step::TakeAll(b"f"),
    Step::Nodes(EMPTY),
    Step::Had(FORKED),
    Step::End,
    Step::PutAll(FORKED_KEYS),
    Step::Begin,
    Step::TakeAll(b"foo"),
    Step::Nodes(EMPTY),
    Step::Had(FORKED),
    Step::End,
    Step::PutAll(FORKED_KEYS),
    Step::Begin,
    Step::TakeAll(b"foot"),
    Step::Nodes(FOO),
    Step::Had(FORKED),
    Step::End,
    Step::Watch(b"foo\0", false, true),
    Step::Watch(b"foot\0", true, true),
    Step::Listed(8),
    Step::PutAll(FORKED_KEYS),
    Step::Begin,
    Step::TakeAll(b"foo\0"),
    Step::Nodes(WITHOUT_FOO),
    Step::Had(FORKED),
    Step::End,
    Step::PutAll(FORKED_KEYS),
    Step::Begin,
    Step::TakeAll(b"footb"),
    Step::Nodes(WITHOUT_FOOTBALL),
    Step::Had(FORKED),
    Step::End,
    Step::PutAll(FORKED_KEYS),
    Step::Begin,
    Step::TakeAll(b"football\0"),
    Step::Nodes(WITHOUT_FOOTBALL),
    Step::Had(FORKED),
    Step::End,
    Step::PutAll(FORKED_KEYS),
    Step::Begin,
    Step::TakeAll(b"g"),
    Step::Nodes(FORKED),
    Step::Had(FORKED),
    Step::End,
    Step::Listed(0),
    Step::PutAll(FORKED_KEYS),
    Step::Begin,
    Step::TakeAll(b"fob"),
    Step::Nodes(FORKED),
    Step::Had(FORKED),
    Step::End,
    Step::Listed(0),
    Step::PutAll(FORKED_KEYS),
    Step::Begin,
    Step::TakeAll(b"football\0\0"),
    Step::Nodes(FORKED),
    Step::Had(FORKED),
    Step::End,
    Step::Listed(0),
];

/// Keys, keys between them, and prefixes of them.
const BOUNDS: &[&[u8]] = &[
    b"",
    b"\x00",
    b"a",
    b"a\x00",
    b"a\x00\x00",
    b"aa",
    b"ab",
    b"aba",
    b"abc",
    b"abcd",
    b"b",
    b"c",
    b"\xff",
    b"\xff\x00",
];

/// The keys of texts end with 00. The first two are those of 255 and 256, each with the text after
/// it.
const STORED: &[&[u8]] = &[
    b"\x00\xffx\x00",
    b"\x01\x00y\x00",
    b"ann\x00",
    b"anna\x00",
    b"bob\x00",
    b"cy\x00",
    b"east\x00",
    b"east\x00web\x00",
];

/// The two keys part after `fooba`, the bytes of one edge.
const PARTED: &[&[u8]] = &[b"foobar", b"foobaz"];

/// Each begins with `foo`.
const WORDS: &[&[u8]] = &[b"foo\0", b"foot\0", b"football\0"];

/// Keys that begin each other.
const NESTED: &[&[u8]] = &[b"", b"a", b"ab", b"abc"];

/// Keys that begin each other, each with its length for its number. Each step of a walk goes one
/// node deeper.
const CHAIN: &[&[u8]] = &[
    b"",
    b"a",
    b"ab",
    b"abc",
    b"abcd",
    b"abcde",
    b"abcdef",
    b"abcdefg",
    b"abcdefgh",
    b"abcdefghi",
    b"abcdefghij",
];

/// What is asked of trees.
pub static WALKS: [Step; 129] = [
    // the tree without keys
    Step::Ask(Ask::Ascend, b"", &[]),
    Step::Ask(Ask::Descend, b"", &[]),
    Step::Ask(Ask::FromKey, b"", &[]),
    Step::Ask(Ask::DownFrom, b"", &[]),
    Step::Ask(Ask::First, b"", &[]),
    Step::Ask(Ask::Last, b"", &[]),
    Step::Ask(Ask::Longest, b"", &[]),
    Step::Ask(Ask::Get, b"", &[]),
    Step::Ask(Ask::Ascend, b"a", &[]),
    Step::Ask(Ask::Descend, b"a", &[]),
    Step::Ask(Ask::FromKey, b"a", &[]),
    Step::Ask(Ask::DownFrom, b"a", &[]),
    Step::Ask(Ask::First, b"a", &[]),
    Step::Ask(Ask::Last, b"a", &[]),
    Step::Ask(Ask::Longest, b"a", &[]),
    Step::Ask(Ask::Get, b"a", &[]),
    Step::End,
    // a prefix tells a whole text by the end byte, and a bound is compared with whole keys
    Step::PutAll(STORED),
    Step::Ask(Ask::Ascend, b"", &[0, 1, 2, 3, 4, 5, 6, 7]),
    Step::Ask(Ask::Ascend, b"ann\x00", &[2]),
    Step::Ask(Ask::Ascend, b"ann", &[2, 3]),
    Step::Ask(Ask::Ascend, b"an\x00", &[]),
    Step::Ask(Ask::Descend, b"", &[7, 6, 5, 4, 3, 2, 1, 0]),
    Step::Ask(Ask::Descend, b"ann\x00", &[2]),
    Step::Ask(Ask::Descend, b"an", &[3, 2]),
    Step::Ask(Ask::FromKey, b"bob\x00", &[4, 5, 6, 7]),
    Step::Ask(Ask::FromKey, b"\x00\xff", &[0, 1, 2, 3, 4, 5, 6, 7]),
    Step::Ask(Ask::FromKey, b"\x01\x00", &[1, 2, 3, 4, 5, 6, 7]),
    Step::Ask(Ask::DownFrom, b"bob\x00", &[4, 3, 2, 1, 0]),
    Step::Ask(Ask::DownFrom, b"\x01\x00", &[0]),
    Step::Ask(Ask::DownFrom, b"\x01\x01", &[1, 0]),
    // the first and the last row under a prefix, and the longest key that begins a text
    Step::Ask(Ask::First, b"", &[0]),
    Step::Ask(Ask::Last, b"", &[7]),
    Step::Ask(Ask::First, b"\x00", &[0]),
    Step::Ask(Ask::Last, b"\x00", &[0]),
    Step::Ask(Ask::First, b"an", &[2]),
    Step::Ask(Ask::Last, b"an", &[3]),
    Step::Ask(Ask::First, b"ann\x00", &[2]),
    Step::Ask(Ask::Last, b"ann\x00", &[2]),
    Step::Ask(Ask::First, b"east", &[6]),
    Step::Ask(Ask::Last, b"east", &[7]),
    Step::Ask(Ask::First, b"east\x00", &[6]),
    Step::Ask(Ask::Last, b"east\x00", &[7]),
    Step::Ask(Ask::First, b"east\x00w", &[7]),
    Step::Ask(Ask::Last, b"east\x00w", &[7]),
    Step::Ask(Ask::First, b"east\x00web\x00x", &[]),
    Step::Ask(Ask::Last, b"east\x00web\x00x", &[]),
    Step::Ask(Ask::First, b"d", &[]),
    Step::Ask(Ask::Last, b"d", &[]),
    Step::Ask(Ask::Longest, b"east\x00db", &[6]),
    Step::Ask(Ask::Longest, b"east\x00web", &[6]),
    Step::Ask(Ask::Longest, b"east\x00web\x00", &[7]),
    Step::Ask(Ask::Longest, b"east\x00web\x00x", &[7]),
    Step::Ask(Ask::Longest, b"east", &[]),
    Step::Ask(Ask::Longest, b"west", &[]),
    Step::Ask(Ask::Longest, b"\x00\xffx\x00\xff", &[0]),
    Step::End,
    // a prefix may end within an edge
    Step::PutAll(PARTED),
    Step::Ask(Ask::Ascend, b"f", &[0, 1]),
    Step::Ask(Ask::Ascend, b"foob", &[0, 1]),
    Step::Ask(Ask::Ascend, b"fooba", &[0, 1]),
    Step::Ask(Ask::Ascend, b"foobaz", &[1]),
    Step::Ask(Ask::Ascend, b"fox", &[]),
    Step::Ask(Ask::Ascend, b"foobas", &[]),
    Step::Ask(Ask::Ascend, b"foobarx", &[]),
    Step::Ask(Ask::Ascend, b"goo", &[]),
    Step::Ask(Ask::Descend, b"f", &[1, 0]),
    Step::Ask(Ask::Descend, b"fooba", &[1, 0]),
    Step::Ask(Ask::Descend, b"foobas", &[]),
    Step::Ask(Ask::Descend, b"fox", &[]),
    Step::End,
    // bounds hold between keys and at prefixes of them
    Step::PutAll(&[b"", b"a", b"a\x00", b"ab", b"abc", b"b", b"\xff"]),
    Step::Asks(BOUNDS),
    Step::End,
    // and in a node with 256 edges
    Step::PutBytes,
    Step::Asks(BOUNDS),
    Step::End,
    // the longest key
    Step::Put(&[b'k'; 2048], 1),
    Step::Asks(&[&[b'k'; 2048], &[b'k'; 2047]]),
    Step::End,
    // whole keys alone are found, and a prefix of no key leads nowhere
    Step::PutAll(WORDS),
    Step::Ask(Ask::Get, b"foo\0", &[0]),
    Step::Ask(Ask::Get, b"foot\0", &[1]),
    Step::Ask(Ask::Get, b"football\0", &[2]),
    Step::Ask(Ask::Get, b"", &[]),
    Step::Ask(Ask::Get, b"f", &[]),
    Step::Ask(Ask::Get, b"foo", &[]),
    Step::Ask(Ask::Get, b"foot", &[]),
    Step::Ask(Ask::Get, b"football", &[]),
    Step::Ask(Ask::Get, b"foo\0\0", &[]),
    Step::Ask(Ask::Get, b"footballs\0", &[]),
    Step::Ask(Ask::First, b"g", &[]),
    Step::Ask(Ask::First, b"fa", &[]),
    Step::Ask(Ask::First, b"foo\0\0", &[]),
    Step::Ask(Ask::First, b"fooz", &[]),
    Step::Ask(Ask::First, b"footbz", &[]),
    Step::Ask(Ask::First, b"football\0x", &[]),
    Step::Nowhere(b"g"),
    Step::Nowhere(b"fa"),
    Step::Nowhere(b"foo\0\0"),
    Step::Nowhere(b"fooz"),
    Step::Nowhere(b"footbz"),
    Step::Nowhere(b"football\0x"),
    Step::End,
    // keys that begin each other are told apart
    Step::PutAll(NESTED),
    Step::Ask(Ask::Longest, b"", &[0]),
    Step::Ask(Ask::Longest, b"x", &[0]),
    Step::Ask(Ask::Longest, b"ax", &[1]),
    Step::Ask(Ask::Longest, b"ab", &[2]),
    Step::Ask(Ask::Longest, b"abc", &[3]),
    Step::Ask(Ask::Longest, b"abcd", &[3]),
    Step::Ask(Ask::Get, b"", &[0]),
    Step::Ask(Ask::Get, b"ab", &[2]),
    Step::Ask(Ask::Get, b"abcd", &[]),
    Step::Ask(Ask::Get, b"ac", &[]),
    Step::End,
    // the same of more of them
    Step::PutAll(CHAIN),
    Step::Ask(Ask::Longest, b"", &[0]),
    Step::Ask(Ask::Longest, b"x", &[0]),
    Step::Ask(Ask::Longest, b"ax", &[1]),
    Step::Ask(Ask::Longest, b"ab", &[2]),
    Step::Ask(Ask::Longest, b"abc", &[3]),
    Step::Ask(Ask::Longest, b"abcx", &[3]),
    Step::Ask(Ask::Get, b"", &[0]),
    Step::Ask(Ask::Get, b"ab", &[2]),
    Step::Ask(Ask::Get, b"abcx", &[]),
    Step::Ask(Ask::Get, b"ac", &[]),
    Step::Ask(Ask::Descend, b"", &[10, 9, 8, 7, 6, 5, 4, 3, 2, 1, 0]),
    Step::End,
];

/// Each key of three is put twice, and a fourth one comes and goes.
///
/// No clause says where the mark of own nodes is: with one that stays where it was while a tree is
/// given, all proofs pass, and these put a leaf again without an id.
pub static OWNED: [Step; 9] = [
    Step::Draw(b"foo\0", true),
    Step::Draw(b"foo\0", false),
    Step::Draw(b"football\0", true),
    Step::Draw(b"football\0", false),
    Step::Draw(b"foot\0", true),
    Step::Draw(b"foot\0", false),
    Step::Put(b"n\0", 2),
    Step::Take(b"n\0"),
    Step::Glance,
];

/// Some writes come to nodes that the transaction made since a tree was given, and some to shared
/// ones.
pub static REFUSED: [Step; 27] = [
    Step::Stand,
    Step::Put(b"foo\0", 0),
    Step::Put(b"football\0", 1),
    Step::Put(b"foot\0", 2),
    Step::Put(b"fool\0", 3),
    Step::Put(b"n\0", 4),
    Step::Begin,
    Step::Put(b"foo\0", 10),
    Step::Put(b"foo\0", 11),
    Step::Put(b"footer\0", 12),
    Step::Put(b"food\0", 13),
    Step::Put(b"fo\0", 14),
    Step::Stand,
    Step::Put(b"fo", 15),
    Step::Take(b"football\0"),
    Step::Put(b"n\0", 16),
    Step::Put(b"nothing that is there already\0", 17),
    Step::Take(b"n\0"),
    Step::Stand,
    Step::TakeAll(b"foot"),
    Step::Put(b"fool\0", 18),
    Step::Put(b"foolish\0", 19),
    Step::Take(b"fool\0"),
    Step::TakeAll(b"fo"),
    Step::Stand,
    Step::TakeAll(b""),
    Step::End,
];
