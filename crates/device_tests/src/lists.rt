//! Lists of owned values, copied and compared.
use acl_items::{Copied, Items};
use std::alloc::{AllocError, Global};
use std::cmp::Ordering;
use std::test::Fail;

// A byte that is copied like a value with memory of its own.
#[derive(Debug, PartialEq, Eq, PartialOrd, Ord, Drop)]
struct Letter(u8);

impl Copied for Letter {
    fn copied(&self, _alloc: Global) -> Result<Letter, AllocError> {
        Ok(Letter(self.0))
    }
}

fn list(alloc: Global, text: &str) -> Result<Items<Letter>, AllocError> {
    let mut items = Items::new(alloc);
    for byte in text.as_bytes() {
        items.push(Letter(*byte))?;
    }
    Ok(items)
}

struct Pair {
    left: &'static str,
    right: &'static str,
    order: Ordering,
}

static PAIRS: [Pair; 5] = [
    Pair {
        left: "",
        right: "",
        order: Ordering::Equal,
    },
    Pair {
        left: "ab",
        right: "ab",
        order: Ordering::Equal,
    },
    Pair {
        left: "ab",
        right: "aba",
        order: Ordering::Less,
    },
    Pair {
        left: "b",
        right: "az",
        order: Ordering::Greater,
    },
    Pair {
        left: "",
        right: "a",
        order: Ordering::Less,
    },
];

#[test]
fn lists_are_copied_and_compared(rt: HostRuntime) -> Result<(), Fail> {
    let alloc = rt.alloc();
    for pair in &PAIRS {
        let left = list(alloc, pair.left)?;
        let right = list(alloc, pair.right)?;
        assert_eq!(rt; left.cmp(&right), pair.order);
        assert_eq!(rt; left == right, pair.order == Ordering::Equal);
        assert!(rt; left.copied(alloc)? == left);
    }
    Ok(())
}
