//! What holders hold on things, while entries come and go.
use acl_items::Copied;
use held_bits::{Bits, HeldBits};
use std::alloc::{AllocError, Global};
use std::process::Abort;
use std::test::Fail;

// A thing that is copied like a value with memory of its own.
#[derive(Debug, PartialEq, Eq, Hash, Drop)]
struct Letter(u8);

impl Copied for Letter {
    fn copied(&self, _alloc: Global) -> Result<Letter, AllocError> {
        Ok(Letter(self.0))
    }
}

#[derive(Clone, Copy)]
enum Act {
    Set,
    Replace,
    Clear,
}

// What is done, and how many entries and things there are then.
struct Step {
    act: Act,
    holder: u32,
    thing: u8,
    granted: u32,
    restricted: u32,
    entries: usize,
    things: usize,
}

// The numbers of things that go are taken by later ones.
static STEPS: [Step; 13] = [
    Step {
        act: Act::Set,
        holder: 2,
        thing: b'b',
        granted: 1,
        restricted: 0,
        entries: 1,
        things: 1,
    },
    Step {
        act: Act::Set,
        holder: 2,
        thing: b'a',
        granted: 3,
        restricted: 0,
        entries: 2,
        things: 2,
    },
    Step {
        act: Act::Set,
        holder: 1,
        thing: b'b',
        granted: 0,
        restricted: 4,
        entries: 3,
        things: 2,
    },
    Step {
        act: Act::Replace,
        holder: 2,
        thing: b'b',
        granted: 1,
        restricted: 8,
        entries: 3,
        things: 2,
    },
    Step {
        act: Act::Set,
        holder: 2,
        thing: b'a',
        granted: 0,
        restricted: 0,
        entries: 2,
        things: 1,
    },
    Step {
        act: Act::Set,
        holder: 1,
        thing: b'c',
        granted: 5,
        restricted: 0,
        entries: 3,
        things: 2,
    },
    Step {
        act: Act::Clear,
        holder: 2,
        thing: b'b',
        granted: 0,
        restricted: 0,
        entries: 2,
        things: 2,
    },
    Step {
        act: Act::Clear,
        holder: 2,
        thing: b'b',
        granted: 0,
        restricted: 0,
        entries: 2,
        things: 2,
    },
    Step {
        act: Act::Replace,
        holder: 1,
        thing: b'b',
        granted: 0,
        restricted: 0,
        entries: 1,
        things: 1,
    },
    Step {
        act: Act::Set,
        holder: 3,
        thing: b'a',
        granted: 6,
        restricted: 0,
        entries: 2,
        things: 2,
    },
    Step {
        act: Act::Set,
        holder: 1,
        thing: b'a',
        granted: 0xffff_ffff,
        restricted: 7,
        entries: 3,
        things: 2,
    },
    Step {
        act: Act::Set,
        holder: 2,
        thing: b'z',
        granted: 0,
        restricted: 0,
        entries: 3,
        things: 2,
    },
    Step {
        act: Act::Set,
        holder: 2,
        thing: b'd',
        granted: 9,
        restricted: 9,
        entries: 4,
        things: 3,
    },
];

// The entries at the end: the holder, the thing, and its bits granted and restricted, in the order of holders.
static LEFT: [(u32, u8, u32, u32); 4] = [
    (1, b'c', 5, 0),
    (1, b'a', 0xffff_ffff, 7),
    (2, b'd', 9, 9),
    (3, b'a', 6, 0),
];

fn take(rt: &impl Abort, held: &mut HeldBits<Letter>, step: &Step) -> Result<(), Fail> {
    let thing = Letter(step.thing);
    let bits = Bits {
        granted: step.granted,
        restricted: step.restricted,
    };
    match step.act {
        Act::Set => {
            held.reserve(1, 1)?;
            held.set(step.holder, thing, bits);
        }
        Act::Replace => {
            assert!(rt; !held.bits(step.holder, &thing).are_none());
            held.replace(step.holder, &thing, bits);
        }
        Act::Clear => held.clear(step.holder, &thing),
    }
    Ok(())
}

// Whether the holder holds just these bits on the thing.
fn holds(held: &HeldBits<Letter>, holder: u32, thing: u8, granted: u32, restricted: u32) -> bool {
    let bits = held.bits(holder, &Letter(thing));
    bits.granted == granted && bits.restricted == restricted
}

#[test]
fn entries_come_and_go(rt: HostRuntime) -> Result<(), Fail> {
    let mut held = HeldBits::new(rt.alloc());
    for step in &STEPS {
        take(&rt, &mut held, step)?;
        assert!(rt;
            holds(
                &held,
                step.holder,
                step.thing,
                step.granted,
                step.restricted
            )
        );
        assert_eq!(rt; held.len(), step.entries);
        assert_eq!(rt; held.things(), step.things);
        assert_eq!(rt; held.things_held().len(), step.things);
    }
    let copied = held.copy(rt.alloc())?;
    for (holder, thing, granted, restricted) in &LEFT {
        assert!(rt; holds(&copied, *holder, *thing, *granted, *restricted));
    }
    assert_eq!(rt; copied.uses_of(&Letter(b'a')), 2);
    assert_eq!(rt; copied.uses_of(&Letter(b'b')), 0);
    Ok(())
}

// Whether the entry at the place is the holder's.
fn is_of(held: &HeldBits<Letter>, place: usize, holder: u32) -> bool {
    match held.get(place) {
        Some((other, _, _)) => other == holder,
        None => false,
    }
}

#[test]
fn entries_stand_by_their_holders(rt: HostRuntime) -> Result<(), Fail> {
    let mut held = HeldBits::new(rt.alloc());
    for step in &STEPS {
        take(&rt, &mut held, step)?;
    }
    // A holder, where its entries begin, and how many they are.
    for (holder, first, count) in [(0, 0, 0), (1, 0, 2), (2, 2, 1), (3, 3, 1), (4, 4, 0)] {
        assert_eq!(rt; held.first_of(holder), first);
        for place in 0..5 {
            let within = place >= first && place < first + count;
            assert!(rt; is_of(&held, place, holder) == within);
        }
    }
    Ok(())
}

#[test]
fn entries_go_with_their_holder(rt: HostRuntime) -> Result<(), Fail> {
    let mut held = HeldBits::new(rt.alloc());
    for step in &STEPS {
        take(&rt, &mut held, step)?;
    }
    assert_eq!(rt; held.len(), LEFT.len());
    held.replace_at(2, Bits::none());
    assert_eq!(rt; held.first_of(3), 2);
    held.clear_holder(1);
    assert!(rt; !held.is_empty() && holds(&held, 3, b'a', 6, 0));
    assert_eq!(rt; held.len(), 1);
    assert_eq!(rt; held.things(), 1);
    Ok(())
}
