//! Images that were changed, cut, or made to be deep and wide, through the top call.

use std::alloc::Global;
use std::test::Fail;
use tests_calls::{
    Expected, IDLE_FIRST, IDLE_SECOND, Left, answers_on_image, call_on_image, with_byte,
};

const SCRIPT: &str = "end 10\n";

/// Bytes of the image that are changed, to what, and the line that is put.
type Changed = (usize, u8, &'static str);

/// Those of the first version: letters and version, counts, names, the process, its tree, its
/// code.
const FIRST_CHANGED: &[Changed] = &[
    (0, 0x58, "I1 0"),
    (3, 0x75, "I1 0"),
    (4, 1, "I1 4"),
    (5, 0, "I1 4"),
    (5, 2, "I4 8"),
    (5, 3, "I1 4"),
    (7, 0, "I4 6"),
    (7, 2, "I2 98"),
    (7, 65, "I4 6"),
    (19, 1, "I4 18"),
    (21, 0, "I3 85"),
    (21, 2, "I2 98"),
    (22, 0, "I5 22"),
    (22, 64, "I4 22"),
    (22, 255, "I4 22"),
    (23, 0x30, "I5 22"),
    (25, 0x61, "I5 24"),
    (26, 1, "I4 35"),
    (26, 2, "I6 26"),
    (30, 9, "I4 27"),
    (36, 1, "I7 35"),
    (38, 2, "V4 2 1"),
    (42, 3, "V2 3 4"),
    (54, 1, "V5 4 5"),
    (58, 0, "I4 55"),
    (58, 3, "V5 3 4"),
    (58, 11, "V5 11 10"),
    (60, 0x11, "V3 1048576 1114112"),
    (70, 1, "V3 0 1"),
    (74, 1, "V1 1 0"),
    (78, 1, "I7 75"),
    (80, 1, "I8 81"),
    (84, 1, "I6 85"),
    (85, 0, "I6 85"),
    (85, 1, "V1 0 0"),
    (85, 2, "V6 0 0"),
    (85, 0x31, "I6 85"),
    (97, 1, "I7 94"),
];

/// The same of the second version, where the overhead stands in 6 and 7 and the deadline in 33 to
/// 36; and changes of these.
const SECOND_CHANGED: &[Changed] = &[
    (0, 0x58, "I1 0"),
    (5, 1, "I4 6"),
    (5, 3, "I1 4"),
    (6, 3, "V2 4 1540"),
    (6, 4, "I4 6"),
    (7, 1, "V2 4 6"),
    (9, 0, "I4 8"),
    (9, 2, "I2 104"),
    (21, 1, "I4 20"),
    (23, 0, "I3 91"),
    (27, 0x61, "I5 26"),
    (28, 1, "I4 41"),
    (28, 2, "I6 28"),
    (32, 9, "I4 29"),
    (33, 1, "I4 33"),
    (36, 9, "I4 33"),
    (36, 11, "I4 33"),
    (42, 1, "I7 41"),
    (44, 2, "V4 2 1"),
    (48, 3, "V2 3 4"),
    (60, 1, "V5 4 5"),
    (64, 3, "V5 3 4"),
    (64, 11, "V5 11 10"),
    (76, 1, "V3 0 1"),
    (80, 1, "V1 1 0"),
    (84, 1, "I7 81"),
    (86, 1, "I8 87"),
    (90, 1, "I6 91"),
    (91, 1, "V1 0 0"),
    (91, 2, "V6 0 0"),
    (91, 0x31, "I6 91"),
    (103, 1, "I7 100"),
];

fn leaves(alloc: Global, line: &str, image: &[u8], want: &Left<'_>) -> Result<(), Fail> {
    call_on_image(alloc, line, image, SCRIPT)?.left(line, want)
}

/// Both `run` and `migrate` put this line of the image; no file changes.
fn refuses_with<'x>(alloc: Global, image: &'x [u8], line: &'x str) -> Result<(), Fail> {
    let want = Left {
        status: 4,
        put: line,
        program: None,
        script: Some(SCRIPT.as_bytes()),
        image: Some(image),
        migrated: None,
    };
    leaves(alloc, "run I S", image, &want)?;
    leaves(alloc, "migrate I J", image, &want)
}

/// Both refuse the image with this fault.
fn refuses(alloc: Global, image: &[u8], fault: &str) -> Result<(), Fail> {
    let line = format!(in alloc; "{fault}\n")?;
    refuses_with(alloc, image, line.as_str())
}

/// The image over the script puts this log.
fn runs(alloc: Global, image: &[u8], script: &str, put: &str) -> Result<(), Fail> {
    let want = Expected {
        status: 0,
        put,
        puts: None,
    };
    answers_on_image(alloc, "run I S", image, script, want)
}

fn refuses_change(alloc: Global, image: &[u8], change: &Changed) -> Result<(), Fail> {
    let (at, value, fault) = *change;
    let bytes = with_byte(alloc, image, at, value)?;
    refuses(alloc, bytes.as_slice(), fault)
}

fn refuses_changes(alloc: Global, image: &[u8], changes: &[Changed]) -> Result<(), Fail> {
    for change in changes {
        refuses_change(alloc, image, change)?;
    }
    Ok(())
}

fn refuses_changed(alloc: Global, digits: &str, changes: &[Changed]) -> Result<(), Fail> {
    let image = hex::decode(alloc, digits)?;
    refuses_changes(alloc, image.as_slice(), changes)
}

#[test]
fn one_byte_of_the_first_version_changed(rt: HostRuntime) -> Result<(), Fail> {
    refuses_changed(rt.alloc(), IDLE_FIRST, FIRST_CHANGED)
}

#[test]
fn one_byte_of_the_second_version_changed(rt: HostRuntime) -> Result<(), Fail> {
    refuses_changed(rt.alloc(), IDLE_SECOND, SECOND_CHANGED)
}

/// Cut here the image ends inside a field.
fn refuses_cut(alloc: Global, image: &[u8], place: usize) -> Result<(), Fail> {
    let Some(front) = image.get(..place) else {
        return Err(Fail::new("no such place"));
    };
    let line = format!(in alloc; "I2 {place}\n")?;
    refuses_with(alloc, front, line.as_str())
}

/// The image has this length, and runs; cut after each of its bytes but the last it does not.
fn refuses_cuts(alloc: Global, image: &[u8], length: usize) -> Result<(), Fail> {
    if image.len() != length {
        return Err(Fail::new(format_args!("an image of {} bytes", image.len())));
    }
    runs(alloc, image, SCRIPT, "0 p release\n3 p end\n")?;
    for place in 0..length {
        refuses_cut(alloc, image, place)?;
    }
    Ok(())
}

#[test]
fn the_first_version_cut(rt: HostRuntime) -> Result<(), Fail> {
    let alloc = rt.alloc();
    let image = hex::decode(alloc, IDLE_FIRST)?;
    refuses_cuts(alloc, image.as_slice(), 98)
}

#[test]
fn the_second_version_cut(rt: HostRuntime) -> Result<(), Fail> {
    let alloc = rt.alloc();
    let image = hex::decode(alloc, IDLE_SECOND)?;
    refuses_cuts(alloc, image.as_slice(), 104)
}

/// The first version up to the tree of its process, which begins at 81.
const UP_TO_TREE: &str =
    "5254455500010001000000000000000000000000000101610170000000000a0000000000000001000000040000000000000000000000000000000400000000000000000000000000000000000000000000";

/// What stands there: a front, then a part so many times, then a tail, and the line that is put. A
/// loop opens a tree with 9 bytes (a count, its tag, its turns), a fork with 5, a stay with 7, where
/// there is no monitor. At most 130 trees are open inside one another, and one more is refused at
/// its count, where the bytes do not end inside that. A wait has its tag alone.
type Tree = (
    &'static str,
    &'static str,
    usize,
    &'static str,
    &'static str,
);

const TREES: &[Tree] = &[
    ("", "000000010300000001", 129, "", "I2 1242"),
    ("", "000000010300000001", 130, "", "I2 1251"),
    ("", "000000010300000001", 130, "00", "I2 1252"),
    ("", "000000010300000001", 130, "0000", "I2 1253"),
    ("", "000000010300000001", 130, "000000", "I2 1254"),
    ("", "000000010300000001", 130, "00000000", "I4 1251"),
    ("", "000000010300000001", 131, "", "I4 1251"),
    ("", "000000010300000001", 4_000, "", "I4 1251"),
    ("", "0000000102", 129, "", "I2 726"),
    ("", "0000000102", 131, "", "I4 731"),
    ("", "0000000102", 4_000, "", "I4 731"),
    ("", "00000001050000", 1, "", "I4 86"),
    ("", "00000001050000", 4_000, "", "I4 86"),
    ("ffffffff", "06", 0, "", "I2 85"),
    ("ffffffff", "06", 10_000, "", "I2 10085"),
    ("ffffffff", "07", 10_000, "", "I2 10085"),
    ("ffffffff", "040000", 4_000, "", "I2 12085"),
    ("ffffffff", "0100000001", 4_000, "", "I2 20085"),
    ("ffffffff", "0100000000", 4_000, "", "I4 86"),
    ("ffffffff", "010000ffff", 4_000, "", "I2 20085"),
    ("ffffffff", "0100010000", 4_000, "", "I4 86"),
    ("ffffffff", "020000000000000000", 4_000, "", "I2 36085"),
    ("ffffffff", "0200000000", 4_000, "", "I6 94"),
    ("ffffffff", "08", 4_000, "", "I6 85"),
    ("ffffffff", "00", 4_000, "", "I6 85"),
    ("00000001", "03000f424000000000", 1, "", "I2 94"),
    ("00000001", "03000f424100000000", 1, "", "I4 86"),
    ("00000001", "030000000000000000", 1, "", "I4 86"),
];

fn put_times(image: &mut Vec<u8>, bytes: &[u8], times: usize) -> Result<(), Fail> {
    for _ in 0..times {
        image.extend_from_slice(bytes)?;
    }
    Ok(())
}

/// Puts bytes, told by their digits, so many times.
fn put_digits(alloc: Global, image: &mut Vec<u8>, digits: &str, times: usize) -> Result<(), Fail> {
    let bytes = hex::decode(alloc, digits)?;
    put_times(image, bytes.as_slice(), times)
}

/// Puts what the row says behind the 81 bytes up to the tree.
fn put_tree_bytes(alloc: Global, image: &mut Vec<u8>, tree: &Tree) -> Result<(), Fail> {
    if image.len() != 81 {
        return Err(Fail::new(format_args!("{} bytes up to the tree", image.len())));
    }
    let (front, part, times, tail, _) = *tree;
    put_digits(alloc, image, front, 1)?;
    put_digits(alloc, image, part, times)?;
    put_digits(alloc, image, tail, 1)
}

fn refuses_tree(alloc: Global, tree: &Tree) -> Result<(), Fail> {
    let mut image = hex::decode(alloc, UP_TO_TREE)?;
    put_tree_bytes(alloc, &mut image, tree)?;
    refuses(alloc, image.as_slice(), tree.4)
}

fn refuses_trees(alloc: Global, trees: &[Tree]) -> Result<(), Fail> {
    for tree in trees {
        refuses_tree(alloc, tree)?;
    }
    Ok(())
}

#[test]
fn deep_and_wide_trees(rt: HostRuntime) -> Result<(), Fail> {
    refuses_trees(rt.alloc(), TREES)
}

/// Loops inside one another, with nothing inside the last one: how many, the turns of each, the
/// declared run and the declared bound.
#[derive(Clone, Copy)]
struct Nest {
    depth: u32,
    turns: u32,
    run: u32,
    bound: u32,
}

/// Numbers of 32 bits, high bytes first.
fn put_numbers(bytes: &mut Vec<u8>, numbers: &[u32]) -> Result<(), Fail> {
    for number in numbers {
        bytes.extend_from_slice(number.to_be_bytes().as_slice())?;
    }
    Ok(())
}

fn put_instruction(bytes: &mut Vec<u8>, number: u8, operand: u32) -> Result<(), Fail> {
    bytes.push(number)?;
    put_numbers(bytes, [operand, 0, 0].as_slice())
}

/// Puts the tree of these loops: one inside the other, with nothing inside the last.
fn put_tree(bytes: &mut Vec<u8>, nest: Nest) -> Result<(), Fail> {
    for _ in 0..nest.depth {
        bytes.extend_from_slice([0, 0, 0, 1, 3].as_slice())?;
        put_numbers(bytes, [nest.turns].as_slice())?;
    }
    put_numbers(bytes, [0].as_slice())
}

/// Puts the code of these loops: each is one REPS and one REP.
fn put_code(bytes: &mut Vec<u8>, nest: Nest) -> Result<(), Fail> {
    for _ in 0..nest.depth {
        put_instruction(bytes, 32, nest.turns)?;
    }
    for outer in (0..nest.depth).rev() {
        put_instruction(bytes, 33, outer.saturating_add(1))?;
    }
    put_instruction(bytes, 48, 0)
}

/// Puts what an image of one process of these loops has behind its counts.
fn put_nest(bytes: &mut Vec<u8>, nest: Nest) -> Result<(), Fail> {
    let length = nest.depth.saturating_mul(2).saturating_add(1);
    put_numbers(bytes, [length].as_slice())?;
    bytes.extend_from_slice(b"\x01a\x01p\x00".as_slice())?;
    let numbers = [
        1_000_000_000,
        0,
        1,
        nest.run,
        0,
        0,
        0,
        nest.bound,
        0,
        nest.depth,
        0,
        0,
        0,
    ];
    put_numbers(bytes, numbers.as_slice())?;
    bytes.extend_from_slice([0, 0].as_slice())?;
    put_tree(bytes, nest)?;
    put_code(bytes, nest)
}

/// The image of one process of these loops, in the first version: each has an operand on the stack.
fn nest_image(alloc: Global, nest: Nest) -> Result<Vec<u8>, Fail> {
    let mut bytes = hex::decode(alloc, "525445550001000100000000000000000000")?;
    put_nest(&mut bytes, nest)?;
    Ok(bytes)
}

/// A loop of one turn costs 5 ticks and what is inside it, END costs 4. 129 loops are 130 trees.
const DEEPEST: Nest = Nest {
    depth: 129,
    turns: 1,
    run: 649,
    bound: 649,
};

/// Loops of so many turns to depth 60 cost more than any frame has.
const LONGEST: Nest = Nest {
    depth: 60,
    turns: 1_000_000,
    run: 1_000_000_001,
    bound: 1_000_000_000,
};

const NESTS: &[(Nest, &str)] = &[
    (
        Nest {
            run: 648,
            ..DEEPEST
        },
        "V2 648 649",
    ),
    (
        Nest {
            bound: 648,
            ..DEEPEST
        },
        "V5 648 649",
    ),
    (
        Nest {
            depth: 130,
            ..DEEPEST
        },
        "I4 1251",
    ),
    (
        Nest {
            depth: 131,
            ..DEEPEST
        },
        "I4 1251",
    ),
    (LONGEST, "V5 1000000000 1000000001"),
    (
        Nest {
            run: 1_000_000_000,
            ..LONGEST
        },
        "V2 1000000000 1000000001",
    ),
    (
        Nest {
            run: 1_000_000_002,
            ..LONGEST
        },
        "I4 39",
    ),
];

fn refuses_nest(alloc: Global, nest: Nest, fault: &str) -> Result<(), Fail> {
    let image = nest_image(alloc, nest)?;
    refuses(alloc, image.as_slice(), fault)
}

fn refuses_nests(alloc: Global, rows: &[(Nest, &str)]) -> Result<(), Fail> {
    for &(nest, fault) in rows {
        refuses_nest(alloc, nest, fault)?;
    }
    Ok(())
}

/// The deepest tree that there may be runs.
#[test]
fn the_deepest_tree_runs(rt: HostRuntime) -> Result<(), Fail> {
    let alloc = rt.alloc();
    let image = nest_image(alloc, DEEPEST)?;
    runs(
        alloc,
        image.as_slice(),
        "end 1000\n",
        "0 p release\n648 p end\n",
    )
}

/// One that is deeper is refused at the tree too many, and so are costs that are declared too low.
#[test]
fn loops_in_one_another(rt: HostRuntime) -> Result<(), Fail> {
    refuses_nests(rt.alloc(), NESTS)
}

/// So many letters that are none of an image are refused with this line.
fn refuses_letters(alloc: Global, count: usize, put: &str) -> Result<(), Fail> {
    let image = vec![in alloc; 0x52; count]?;
    let want = Expected {
        status: 4,
        put,
        puts: None,
    };
    answers_on_image(alloc, "run I S", image.as_slice(), SCRIPT, want)
}

/// A byte more than an image may have is told before all others: the letters are none.
#[test]
fn longer_than_an_image_may_be(rt: HostRuntime) -> Result<(), Fail> {
    refuses_letters(rt.alloc(), 8_388_608, "I1 0\n")?;
    refuses_letters(rt.alloc(), 8_388_609, "I9 8388608\n")
}
