//! Wrong passwords in a row, and for how long they block an account.
use acl_names::{LockTime, Policy};
use login_throttle::{Stamp, Tried, attempt, reset};
use std::process::Abort;

// Midnight of 2024-03-01.
const MIDNIGHT: i64 = 1_709_251_200;

// A case begins with a fresh stamp where `anew` is set. A password is tried at a moment; then the answer and the stamp's
// failures.
struct Try {
    anew: bool,
    attempts: u16,
    days: LockTime,
    moment: i64,
    right: bool,
    answer: Tried,
    failures: u16,
}

static TRIES: [Try; 20] = [
    Try {
        anew: true,
        attempts: 3,
        days: LockTime::Days(1),
        moment: MIDNIGHT,
        right: false,
        answer: Tried::Wrong,
        failures: 1,
    },
    Try {
        anew: false,
        attempts: 3,
        days: LockTime::Days(1),
        moment: MIDNIGHT + 10,
        right: false,
        answer: Tried::Wrong,
        failures: 2,
    },
    Try {
        anew: false,
        attempts: 3,
        days: LockTime::Days(1),
        moment: MIDNIGHT + 20,
        right: false,
        answer: Tried::Wrong,
        failures: 3,
    },
    Try {
        anew: false,
        attempts: 3,
        days: LockTime::Days(1),
        moment: MIDNIGHT + 43_200,
        right: true,
        answer: Tried::Blocked { left: Some(43_220) },
        failures: 3,
    },
    Try {
        anew: false,
        attempts: 3,
        days: LockTime::Days(1),
        moment: MIDNIGHT + 86_419,
        right: true,
        answer: Tried::Blocked { left: Some(1) },
        failures: 3,
    },
    Try {
        anew: false,
        attempts: 3,
        days: LockTime::Days(1),
        moment: MIDNIGHT + 86_420,
        right: true,
        answer: Tried::Open,
        failures: 0,
    },
    Try {
        anew: false,
        attempts: 3,
        days: LockTime::Days(1),
        moment: MIDNIGHT + 86_420,
        right: false,
        answer: Tried::Wrong,
        failures: 1,
    },
    Try {
        anew: false,
        attempts: 3,
        days: LockTime::Days(1),
        moment: MIDNIGHT + 86_421,
        right: true,
        answer: Tried::Open,
        failures: 1,
    },
    Try {
        anew: false,
        attempts: 3,
        days: LockTime::Days(1),
        moment: MIDNIGHT + 86_422,
        right: false,
        answer: Tried::Wrong,
        failures: 2,
    },
    Try {
        anew: true,
        attempts: 1,
        days: LockTime::Unbounded,
        moment: MIDNIGHT,
        right: true,
        answer: Tried::Open,
        failures: 0,
    },
    Try {
        anew: false,
        attempts: 1,
        days: LockTime::Unbounded,
        moment: MIDNIGHT,
        right: false,
        answer: Tried::Wrong,
        failures: 1,
    },
    Try {
        anew: false,
        attempts: 1,
        days: LockTime::Unbounded,
        moment: i64::MAX,
        right: true,
        answer: Tried::Blocked { left: None },
        failures: 1,
    },
    Try {
        anew: true,
        attempts: 1,
        days: LockTime::Days(32_767),
        moment: i64::MIN,
        right: false,
        answer: Tried::Wrong,
        failures: 1,
    },
    Try {
        anew: false,
        attempts: 1,
        days: LockTime::Days(32_767),
        moment: i64::MIN,
        right: true,
        answer: Tried::Blocked {
            left: Some(2_831_068_800),
        },
        failures: 1,
    },
    Try {
        anew: false,
        attempts: 1,
        days: LockTime::Days(32_767),
        moment: i64::MAX - 10,
        right: false,
        answer: Tried::Wrong,
        failures: 1,
    },
    Try {
        anew: false,
        attempts: 1,
        days: LockTime::Days(32_767),
        moment: i64::MAX,
        right: true,
        answer: Tried::Blocked {
            left: Some(2_831_068_790),
        },
        failures: 1,
    },
    Try {
        anew: true,
        attempts: 0,
        days: LockTime::Days(1),
        moment: MIDNIGHT,
        right: false,
        answer: Tried::Wrong,
        failures: 0,
    },
    Try {
        anew: false,
        attempts: 0,
        days: LockTime::Days(1),
        moment: MIDNIGHT + 1,
        right: true,
        answer: Tried::Open,
        failures: 0,
    },
    Try {
        anew: true,
        attempts: 1,
        days: LockTime::Days(0),
        moment: MIDNIGHT,
        right: false,
        answer: Tried::Wrong,
        failures: 0,
    },
    Try {
        anew: false,
        attempts: 1,
        days: LockTime::Days(0),
        moment: MIDNIGHT + 1,
        right: false,
        answer: Tried::Wrong,
        failures: 0,
    },
];

// Tries the password once what `attempt` asks of its caller is seen to hold.
fn tried(rt: &impl Abort, stamp: &mut Stamp, row: &Try) -> Tried {
    assert!(rt; row.attempts <= 32_767);
    if let LockTime::Days(days) = row.days {
        assert!(rt; days <= 32_767);
    }
    if let Some(since) = stamp.blocked_at {
        assert!(rt; since <= row.moment);
    }
    assert!(rt; stamp.blocked_at.is_some() || stamp.failures < row.attempts || row.attempts == 0);
    let policy = Policy {
        attempts: row.attempts,
        days: row.days,
    };
    attempt(policy, stamp, row.moment, row.right)
}

#[test]
fn wrong_passwords_block_an_account_for_its_lock_time(rt: HostRuntime) {
    let mut stamp = Stamp::default();
    for row in &TRIES {
        if row.anew {
            reset(&mut stamp);
        }
        let answer = tried(&rt, &mut stamp, row);
        assert_eq!(rt; answer, row.answer, "at {}", row.moment);
        assert_eq!(rt; stamp.failures, row.failures, "at {}", row.moment);
    }
}
