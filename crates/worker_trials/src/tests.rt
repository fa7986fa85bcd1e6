//! The histories of each kind of grade, and what they came to.
use crate::history::{Course, Tally};
use crate::slots::Slots;
use crate::trial::{CONCEPTS, INCLUSIONS, Tried, compare};
use grades::kind::GradeKind;
use grades::plain::Plain;
use grades::releases::Releases;
use grades::views::Views;
use random_sheets::{Random, Size, random_sheet};
use reference::Kind;
use staging::trouble::Trouble;
use std::alloc::Global;
use std::process::Abort;
use std::test::*;

/// How many histories there are for each kind of grade.
const HISTORIES: u64 = 2000;

/// Random sheets with one history each; in every other one, lowered leases may be rechecked on the wrong board.
fn compare_all<K: GradeKind>(heap: Global, tried: Tried<K>) -> Result<Tally, Trouble<Slots>> {
    let mut course = Course {
        random: Random::seeded(1),
        astray: false,
        tally: Tally::default(),
        wrong: false,
    };
    for _ in 0..HISTORIES {
        course.astray = !course.astray;
        let size = Size {
            concepts: course.random.below(CONCEPTS + 1),
            roles: course.random.below(3),
            inclusions: course.random.below(INCLUSIONS + 1),
            most_code: tried.most_code,
        };
        let text = random_sheet(heap, &mut course.random, size)?;
        compare(heap, tried, &text, &mut course)?;
    }
    Ok(course.tally)
}

/// The histories of a kind come to what is expected. A token that no board accepts may not be let go, so the test stops with it.
fn check_histories<K: GradeKind>(
    rt: &(impl Abort + Print),
    heap: Global,
    name: &str,
    tried: Tried<K>,
    expected: &str,
) -> Result<(), Fail> {
    match compare_all(heap, tried) {
        Ok(tally) => {
            println!(rt; "{name}: {HISTORIES} sheets and histories compared, {tally}")?;
            let text = format!(in heap; "{tally}")?;
            assert_eq!(rt; text.as_str(), expected);
            Ok(())
        }
        Err(trouble) => panic!(rt; "{name}: {trouble}"),
    }
}

#[test]
fn histories_with_one_point(rt: HostRuntime) -> Result<(), Fail> {
    check_histories(
        &rt,
        rt.alloc(),
        "Plain",
        Tried {
            kind: Plain,
            known: Kind::Plain,
            most_code: 1,
        },
        "16962 takes, 19404 steps, 36880 leases refused, 3727 rechecks astray, 814 boards healed, 5714 questions too early",
    )
}

#[test]
fn histories_of_releases(rt: HostRuntime) -> Result<(), Fail> {
    check_histories(
        &rt,
        rt.alloc(),
        "Releases",
        Tried {
            kind: Releases,
            known: Kind::Releases,
            most_code: 64,
        },
        "18365 takes, 22344 steps, 40282 leases refused, 4072 rechecks astray, 865 boards healed, 6374 questions too early",
    )
}

#[test]
fn histories_of_views(rt: HostRuntime) -> Result<(), Fail> {
    check_histories(
        &rt,
        rt.alloc(),
        "Views",
        Tried {
            kind: Views,
            known: Kind::Views,
            most_code: 65535,
        },
        "17928 takes, 21691 steps, 38483 leases refused, 3967 rechecks astray, 848 boards healed, 6183 questions too early",
    )
}
