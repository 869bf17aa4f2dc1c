//! What views read of what was published.
ghost use Rattle.std.specs.Prelude.{◌≡◌, ◌∷◌, [], false, IfOk};

use crate::scale::{Scale, Weight};
use crate::shown::Shown;
use published_copies::{Awaited, PublishedCopy, Publisher, View, await_length, read_last};
use std::alloc::{AllocError, Global};
use std::sync::Wait;
use std::test::Fail;

type Pressed = Publisher<Shown, Weight>;

type Sight = View<Shown, Weight>;

/// No list here is so long: the view was given no entry.
const NONE: u32 = u32::MAX;

const PUBLICATIONS: u32 = 10_000;

fn length<S: PublishedCopy<Weight, Value = Scale>>(view: &mut View<S, Weight>) -> u32
    ensures { view.new.book ≡ view.old.book }
{
    match view.read(|scale: &Scale| scale.entries.len() as u32) {
        Ok(length) => length,
        Err(_) => NONE,
    }
}

/// The length and the weight, read at once.
fn weighed<S: PublishedCopy<Weight, Value = Scale>>(view: &mut View<S, Weight>) -> (u32, u64)
    ensures { view.new.book ≡ view.old.book }
{
    match view.read(|scale: &Scale| (scale.entries.len() as u32, scale.total)) {
        Ok(both) => both,
        Err(_) => (NONE, 0),
    }
}

fn one(alloc: Global, entry: Weight) -> Result<Scale, AllocError>
    ensures { IfOk result (λ s. (s.entries.items ≡ entry ∷ []) × (s.ended ≡ false)) }
{
    let mut scale = Scale::new(alloc);
    match scale.accept(entry) {
        Ok(()) => Ok(scale),
        Err(refused) => Err(refused),
    }
}

// Publishes an entry each time.
fn publish_all<R: Wait>(rt: &R, alloc: Global, publisher: &mut Pressed, count: u32) -> u32
    requires { publisher.old.handed.ended ≡ false }
    ensures { (publisher.new.book ≡ publisher.old.book) × (publisher.new.handed.ended ≡ false) }
{
    let mut done = 0;
    for weight in 0..count {
        if publisher.append(alloc, &Weight(weight)).is_err() {
            return done;
        }
        if publisher.publish(rt).is_err() {
            return done;
        }
        done = weight + 1;
    }
    done
}

// Publishes an entry each time, and reads it. How often the whole was read.
fn read_through<R: Wait>(rt: &R, alloc: Global, publisher: &mut Pressed, view: &mut Sight) -> u32
    requires open { publisher.old.handed.ended ≡ false }
    requires own { view.old.book ≡ publisher.old.book }
    ensures open { publisher.new.handed.ended ≡ false }
    ensures own { view.new.book ≡ publisher.new.book }
{
    for weight in 0..PUBLICATIONS {
        if publish_all(rt, alloc, publisher, 1) != 1 {
            return weight;
        }
        view.learn(publisher.tell());
        if length(view) != weight + 1 {
            return weight;
        }
    }
    PUBLICATIONS
}

// Publishes the end, and reads all of it.
fn finish<R: Wait>(rt: &R, publisher: &mut Pressed, view: &mut Sight) -> Option<u32>
    requires open { publisher.old.handed.ended ≡ false }
    requires own { view.old.book ≡ publisher.old.book }
{
    let Ok(()) = publisher.append_end() else {
        return None;
    };
    let Ok(()) = publisher.publish(rt) else {
        return None;
    };
    read_last(view, publisher.tell()).ok()
}

#[test]
fn what_is_appended_is_read_once_it_is_published(rt: HostRuntime) -> Result<(), Fail> {
    let alloc = rt.alloc();
    let (mut publisher, mut views) = Pressed::new(
        &rt,
        alloc,
        Scale::new(alloc),
        Scale::new(alloc),
        2,
    )?;
    let appended = publisher.append(alloc, &Weight(7)).is_ok();
    let before = (length(&mut views[0]), length(&mut views[1]));
    let published = publisher.publish(&rt).is_ok();
    views[0].learn(publisher.tell());
    let after = length(&mut views[0]);
    publisher.take(&rt);
    assert!(rt; appended && published);
    assert_eq!(rt; (before, after), ((0, 0), 1));
    Ok(())
}

#[test]
fn a_publisher_begins_with_entries(rt: HostRuntime) -> Result<(), Fail> {
    let alloc = rt.alloc();
    let first = one(alloc, Weight(5))?;
    let second = one(alloc, Weight(5))?;
    let (mut publisher, mut views) = Pressed::new(&rt, alloc, first, second, 1)?;
    let begun = weighed(&mut views[0]);
    let done = publish_all(&rt, alloc, &mut publisher, 4);
    views[0].learn(publisher.tell());
    let after = weighed(&mut views[0]);
    publisher.take(&rt);
    assert_eq!(rt; (begun, done, after), ((1, 5), 4, (5, 11)));
    Ok(())
}

#[test]
fn waiting_for_a_length_ends_after_its_turns(rt: HostRuntime) -> Result<(), Fail> {
    let alloc = rt.alloc();
    let (publisher, mut views) = Pressed::new(&rt, alloc, Scale::new(alloc), Scale::new(alloc), 1)?;
    let reached = await_length(&mut views[0], 0, 1).ok();
    let late = await_length(&mut views[0], 1, 5).ok();
    publisher.take(&rt);
    assert_eq!(rt; reached, Some(Awaited::Reached { now: 0 }));
    assert_eq!(rt; late, Some(Awaited::NotYet { now: 0 }));
    Ok(())
}

#[test]
fn a_view_reads_through_many_publications(rt: HostRuntime) -> Result<(), Fail> {
    let alloc = rt.alloc();
    let (mut publisher, mut views) = Pressed::new(
        &rt,
        alloc,
        Scale::new(alloc),
        Scale::new(alloc),
        1,
    )?;
    let Some(mut view) = views.pop() else {
        unreachable!()
    };
    let read = read_through(&rt, alloc, &mut publisher, &mut view);
    let all = finish(&rt, &mut publisher, &mut view);
    publisher.take(&rt);
    assert_eq!(rt; (read, all), (PUBLICATIONS, Some(PUBLICATIONS)));
    Ok(())
}
