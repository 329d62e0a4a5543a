// Small trees of a key kind of width 2.
ghost use Rattle.std.specs.Prelude.{nat_lt};
ghost use Rattle.std.proofs.Common.{rules};

use crate::FillingTree;
use ordered::{Fault, Key, OrderedIndex, Slot};

#[derive(Clone, Copy, PartialEq, PartialOrd)]
struct Mark(u8);

impl Key for Mark {
    const WIDTH: usize = 2;

    ghost WIDTH = { 2 };

    ghost before = { λ a b. nat_lt a.0 b.0 };

    ghost ordered = { Prim.search rules };

    ghost narrowest = { Prim.search rules };

    ghost widest = { Prim.search rules };

    fn is_before(&self, other: &Mark) -> bool {
        self < other
    }
}

fn number(r: Result<(), Fault>) -> u8 {
    r.err().map_or(0, Fault::number)
}

const STALE: Slot<Mark, u8> = Slot {
    filled: true,
    key: Mark(0),
    value: 0,
};

#[test]
fn keys_ascend(rt: HostRuntime) {
    let mut slots = [STALE; 26];
    let mut tree = FillingTree::over(&mut slots);
    assert_eq!(rt; tree.capacity(), 18);
    for k in 1..10 {
        assert_eq!(rt; number(tree.feed(Mark(k), k)), 0);
    }
    assert_eq!(rt; number(tree.feed(Mark(9), 1)), 31);
    assert_eq!(rt; number(tree.feed(Mark(3), 1)), 31);
    assert_eq!(rt; tree.count(), 9);
}

#[test]
fn a_full_tree_takes_no_more(rt: HostRuntime) {
    let mut slots = [STALE; 4];
    let mut tree = FillingTree::over(&mut slots);
    assert_eq!(rt; tree.capacity(), 2);
    assert_eq!(rt; number(tree.feed(Mark(1), 1)), 0);
    assert_eq!(rt; number(tree.feed(Mark(2), 1)), 0);
    assert_eq!(rt; number(tree.feed(Mark(2), 1)), 31);
    assert_eq!(rt; number(tree.feed(Mark(3), 1)), 32);
}

#[test]
fn a_row_too_short_holds_nothing(rt: HostRuntime) {
    let mut slots = [STALE; 1];
    let mut tree = FillingTree::over(&mut slots);
    assert_eq!(rt; tree.capacity(), 0);
    assert_eq!(rt; number(tree.feed(Mark(1), 1)), 32);
}

fn key_of(pair: Option<(Mark, u8)>) -> u8 {
    pair.map_or(0, |(key, _)| key.0)
}

// Of nine leaves the last four are empty.
#[test]
fn a_closed_tree_is_searched(rt: HostRuntime) {
    let mut slots = [STALE; 26];
    let mut filling = FillingTree::over(&mut slots);
    for k in 1..10 {
        assert_eq!(rt; number(filling.feed(Mark(10 * k), k)), 0);
    }
    let tree = filling.close();
    assert_eq!(rt; tree.count(), 9);
    assert_eq!(rt; tree.capacity(), 18);
    assert_eq!(rt; tree.get(Mark(70)), Some(7));
    assert_eq!(rt; tree.get(Mark(71)), None);
    assert_eq!(rt; key_of(tree.at_or_above(Mark(40))), 40);
    assert_eq!(rt; key_of(tree.at_or_above(Mark(41))), 50);
    assert_eq!(rt; key_of(tree.above(Mark(40))), 50);
    assert_eq!(rt; key_of(tree.above(Mark(90))), 0);
}

// [10] [20 30] [40]: the pair put in for the full leaf moves its last pair on.
#[test]
fn pairs_are_put_and_taken(rt: HostRuntime) {
    let mut slots = [STALE; 8];
    let mut filling = FillingTree::over(&mut slots);
    for k in 1..5 {
        assert_eq!(rt; number(filling.feed(Mark(10 * k), k)), 0);
    }
    let mut tree = filling.close();
    assert_eq!(rt; number(tree.take(Mark(20))), 0);
    assert_eq!(rt; number(tree.take(Mark(20))), 34);
    assert_eq!(rt; number(tree.put(Mark(25), 5)), 0);
    assert_eq!(rt; number(tree.put(Mark(25), 6)), 33);
    assert_eq!(rt; number(tree.set(Mark(25), 7)), 0);
    assert_eq!(rt; number(tree.set(Mark(26), 7)), 34);
    assert_eq!(rt; tree.get(Mark(25)), Some(7));
    assert_eq!(rt; number(tree.put(Mark(45), 8)), 0);
    assert_eq!(rt; number(tree.put(Mark(5), 9)), 0);
    assert_eq!(rt; number(tree.put(Mark(6), 9)), 32);
    assert_eq!(rt; number(tree.put(Mark(5), 9)), 33);
    assert_eq!(rt; tree.count(), 6);
}
