//! Calls that are asked together, by what they are, and what is found of them.
use crate::tests::group_play::{NUMBER, Player, Told};
use std::alloc::Global;
use xa_model::Appending::{self, Kept, Lost, Refused};
use xa_rows::{LOG_BYTES, Line, NONE_LISTED, OK, P1, Play};

/// Calls that form a group.
pub struct Grouped {
    pub before: Play,
    pub calls: &'static [&'static str],
    /// Their places, in the order of their records: the prepares stand first.
    pub places: &'static [usize],
    /// Where each record ends, in bytes from where the first begins.
    pub ends: &'static [u64],
    /// What each call is answered if the records are refused, in their order; what is found then; and how many of the
    /// first calls may be asked again: the others should have committed in one phase.
    pub refused: &'static [&'static str],
    pub left: Play,
    pub again: usize,
    /// What is found if none of the records stands, if the first does, if the first two do, and so on.
    pub found: &'static [Play],
}

const FAILED: &str = "-3 Device";

const RETRY: &str = "4 Device";

const LOST: &str = "-7 Device";

/// A crash, and a session that opens the manager after it.
pub const CRASHED: Play = &[&[("crash", OK)], &P1];

/// Three sessions.
pub const P3: [Line; 6] = [
    ("connect", "0 Nothing number 1"),
    ("1 open TMNOFLAGS xarm", OK),
    ("connect", "0 Nothing number 2"),
    ("2 open TMNOFLAGS xarm", OK),
    ("connect", "0 Nothing number 3"),
    ("3 open TMNOFLAGS xarm", OK),
];

/// 1:aa:, 1:bb: and 1:cc: each put at a key, and are left.
pub const THREE: [Line; 9] = [
    ("1 start TMNOFLAGS 1:aa:", NUMBER),
    ("1 put 6b 61", OK),
    ("1 end TMSUCCESS 1:aa:", OK),
    ("2 start TMNOFLAGS 1:bb:", NUMBER),
    ("2 put 6b 62", OK),
    ("2 end TMSUCCESS 1:bb:", OK),
    ("3 start TMNOFLAGS 1:cc:", NUMBER),
    ("3 put 6b 63", OK),
    ("3 end TMSUCCESS 1:cc:", OK),
];

pub const PREPARED_A: [Line; 1] = [("1 prepare TMNOFLAGS 1:aa:", OK)];

pub const PREPARED_BC: [Line; 2] = [
    ("1 prepare TMNOFLAGS 1:bb:", OK),
    ("1 prepare TMNOFLAGS 1:cc:", OK),
];

const SCAN: &str = "1 recover TMSTARTRSCAN|TMENDRSCAN 10";

pub const LIST_A: [Line; 1] = [(SCAN, "1 Nothing xids 1:aa:")];

pub const LIST_B: [Line; 1] = [(SCAN, "1 Nothing xids 1:bb:")];

pub const LIST_C: [Line; 1] = [(SCAN, "1 Nothing xids 1:cc:")];

pub const LIST_AB: [Line; 1] = [(SCAN, "2 Nothing xids 1:aa: 1:bb:")];

pub const LIST_AC: [Line; 1] = [(SCAN, "2 Nothing xids 1:aa: 1:cc:")];

pub const LIST_BC: [Line; 1] = [(SCAN, "2 Nothing xids 1:bb: 1:cc:")];

pub const LIST_ABC: [Line; 1] = [(SCAN, "3 Nothing xids 1:aa: 1:bb: 1:cc:")];

// A later branch reads the key: what one of the three wrote, or nothing; or that isn't decided yet.
const BEGUN: [Line; 1] = [("1 start TMNOFLAGS 1:99:", NUMBER)];

const ENDED: [Line; 2] = [
    ("1 end TMSUCCESS 1:99:", OK),
    ("1 rollback TMNOFLAGS 1:99:", OK),
];

const ABSENT: [Line; 1] = [("1 get 6b", "0 Nothing absent")];

const BUSY: [Line; 1] = [("1 get 6b", "4 Busy")];

const READ_A: [Line; 1] = [("1 get 6b", "0 Nothing value 61")];

const READ_B: [Line; 1] = [("1 get 6b", "0 Nothing value 62")];

const READ_C: [Line; 1] = [("1 get 6b", "0 Nothing value 63")];

const GONE_A: [Line; 1] = [("1 commit TMONEPHASE 1:aa:", "-4 Nothing")];

const GONE_C: [Line; 1] = [("3 commit TMONEPHASE 1:cc:", "-4 Nothing")];

pub const AT_WORK: Play = &[&P3, &THREE];

pub const VOTED: Play = &[&P3, &THREE, &PREPARED_A, &PREPARED_BC];

// The record of a branch that is prepared, or committed in one phase, has 60 bytes; of one that is completed or decided,
// 45; and of a forgotten one, 44.
const PREPARES: Grouped = Grouped {
    before: AT_WORK,
    calls: &[
        "1 prepare TMNOFLAGS 1:aa:",
        "2 prepare TMNOFLAGS 1:bb:",
        "3 prepare TMNOFLAGS 1:cc:",
    ],
    places: &[0, 1, 2],
    ends: &[60, 120, 180],
    refused: &[FAILED, FAILED, FAILED],
    left: &[&NONE_LISTED, &BEGUN, &BUSY, &ENDED],
    again: 3,
    found: &[
        &[&NONE_LISTED, &BEGUN, &ABSENT, &ENDED],
        &[&LIST_A, &BEGUN, &BUSY, &ENDED],
        &[&LIST_AB, &BEGUN, &BUSY, &ENDED],
        &[&LIST_ABC, &BEGUN, &BUSY, &ENDED],
    ],
};

const COMMITS: Grouped = Grouped {
    before: VOTED,
    calls: &[
        "1 commit TMNOFLAGS 1:aa:",
        "2 commit TMNOFLAGS 1:bb:",
        "3 commit TMNOFLAGS 1:cc:",
    ],
    places: &[0, 1, 2],
    ends: &[45, 90, 135],
    refused: &[RETRY, RETRY, RETRY],
    left: &[&LIST_ABC, &BEGUN, &BUSY, &ENDED],
    again: 3,
    found: &[
        &[&LIST_ABC, &BEGUN, &BUSY, &ENDED],
        &[&LIST_BC, &BEGUN, &BUSY, &ENDED],
        &[&LIST_C, &BEGUN, &BUSY, &ENDED],
        &[&NONE_LISTED, &BEGUN, &READ_C, &ENDED],
    ],
};

const COMMITS_AT_ONCE: Grouped = Grouped {
    before: AT_WORK,
    calls: &[
        "1 commit TMONEPHASE 1:aa:",
        "2 commit TMONEPHASE 1:bb:",
        "3 commit TMONEPHASE 1:cc:",
    ],
    places: &[0, 1, 2],
    ends: &[60, 120, 180],
    refused: &[FAILED, FAILED, FAILED],
    left: &[&NONE_LISTED, &BEGUN, &ABSENT, &ENDED, &GONE_A, &GONE_C],
    again: 0,
    found: &[
        &[&NONE_LISTED, &BEGUN, &ABSENT, &ENDED],
        &[&NONE_LISTED, &BEGUN, &READ_A, &ENDED],
        &[&NONE_LISTED, &BEGUN, &READ_B, &ENDED],
        &[&NONE_LISTED, &BEGUN, &READ_C, &ENDED],
    ],
};

const PREPARES_AND_COMMIT_AT_ONCE: Grouped = Grouped {
    before: AT_WORK,
    calls: &[
        "3 commit TMONEPHASE 1:cc:",
        "1 prepare TMNOFLAGS 1:aa:",
        "2 prepare TMNOFLAGS 1:bb:",
    ],
    places: &[1, 2, 0],
    ends: &[60, 120, 180],
    refused: &[FAILED, FAILED, FAILED],
    left: &[&NONE_LISTED, &BEGUN, &BUSY, &ENDED, &GONE_C],
    again: 2,
    found: &[
        &[&NONE_LISTED, &BEGUN, &ABSENT, &ENDED],
        &[&LIST_A, &BEGUN, &BUSY, &ENDED],
        &[&LIST_AB, &BEGUN, &BUSY, &ENDED],
        &[&LIST_AB, &BEGUN, &READ_C, &ENDED],
    ],
};

const COMMIT_AND_PREPARE: Grouped = Grouped {
    before: &[&P3, &THREE, &PREPARED_A],
    calls: &["2 commit TMNOFLAGS 1:aa:", "1 prepare TMNOFLAGS 1:bb:"],
    places: &[1, 0],
    ends: &[60, 105],
    refused: &[FAILED, RETRY],
    left: &[&LIST_A, &BEGUN, &BUSY, &ENDED],
    again: 2,
    found: &[
        &[&LIST_A, &BEGUN, &BUSY, &ENDED],
        &[&LIST_AB, &BEGUN, &BUSY, &ENDED],
        &[&LIST_B, &BEGUN, &BUSY, &ENDED],
    ],
};

// Six branches, each with a key of its own; four of them in doubt, of which the operator commits one.
const SIX: [Line; 18] = [
    ("1 start TMNOFLAGS 1:aa:", NUMBER),
    ("1 put aa 01", OK),
    ("1 end TMSUCCESS 1:aa:", OK),
    ("1 start TMNOFLAGS 1:bb:", NUMBER),
    ("1 put bb 01", OK),
    ("1 end TMSUCCESS 1:bb:", OK),
    ("1 start TMNOFLAGS 1:cc:", NUMBER),
    ("1 put cc 01", OK),
    ("1 end TMSUCCESS 1:cc:", OK),
    ("1 start TMNOFLAGS 1:dd:", NUMBER),
    ("1 put dd 01", OK),
    ("1 end TMSUCCESS 1:dd:", OK),
    ("1 start TMNOFLAGS 1:ee:", NUMBER),
    ("1 put ee 01", OK),
    ("1 end TMSUCCESS 1:ee:", OK),
    ("1 start TMNOFLAGS 1:ff:", NUMBER),
    ("1 put ff 01", OK),
    ("1 end TMSUCCESS 1:ff:", OK),
];

const FOUR_PREPARED: [Line; 5] = [
    ("1 prepare TMNOFLAGS 1:cc:", OK),
    ("1 prepare TMNOFLAGS 1:dd:", OK),
    ("1 prepare TMNOFLAGS 1:ee:", OK),
    ("1 prepare TMNOFLAGS 1:ff:", OK),
    ("1 decide commit 1:ff:", OK),
];

const LIST_CDEF: [Line; 1] = [(SCAN, "4 Nothing xids 1:cc: 1:dd: 1:ee: 1:ff:")];

const LIST_ACDEF: [Line; 1] = [(SCAN, "5 Nothing xids 1:aa: 1:cc: 1:dd: 1:ee: 1:ff:")];

const LIST_ACDE: [Line; 1] = [(SCAN, "4 Nothing xids 1:aa: 1:cc: 1:dd: 1:ee:")];

const LIST_ADE: [Line; 1] = [(SCAN, "3 Nothing xids 1:aa: 1:dd: 1:ee:")];

const LIST_AE: [Line; 1] = [(SCAN, "2 Nothing xids 1:aa: 1:ee:")];

const A_ABSENT: [Line; 1] = [("1 get aa", "0 Nothing absent")];

const A_BUSY: [Line; 1] = [("1 get aa", "4 Busy")];

const B_ABSENT: [Line; 1] = [("1 get bb", "0 Nothing absent")];

const B_READ: [Line; 1] = [("1 get bb", "0 Nothing value 01")];

const C_BUSY: [Line; 1] = [("1 get cc", "4 Busy")];

const C_READ: [Line; 1] = [("1 get cc", "0 Nothing value 01")];

const D_BUSY: [Line; 1] = [("1 get dd", "4 Busy")];

const D_ABSENT: [Line; 1] = [("1 get dd", "0 Nothing absent")];

const E_BUSY: [Line; 1] = [("1 get ee", "4 Busy")];

const E_READ: [Line; 1] = [("1 get ee", "0 Nothing value 01")];

const F_READ: [Line; 1] = [("1 get ff", "0 Nothing value 01")];

const GONE_B: [Line; 1] = [("3 commit TMONEPHASE 1:bb:", "-4 Nothing")];

const ONE_OF_EACH: Grouped = Grouped {
    before: &[&P3, &SIX, &FOUR_PREPARED],
    calls: &[
        "1 forget TMNOFLAGS 1:ff:",
        "2 commit TMNOFLAGS 1:cc:",
        "3 prepare TMNOFLAGS 1:aa:",
        "1 rollback TMNOFLAGS 1:dd:",
        "2 decide commit 1:ee:",
        "3 commit TMONEPHASE 1:bb:",
    ],
    places: &[2, 0, 1, 3, 4, 5],
    ends: &[60, 104, 149, 194, 239, 299],
    refused: &[FAILED, FAILED, RETRY, FAILED, FAILED, FAILED],
    left: &[
        &LIST_CDEF, &BEGUN, &A_BUSY, &B_ABSENT, &C_BUSY, &D_BUSY, &E_BUSY, &F_READ, &ENDED, &GONE_B,
    ],
    again: 5,
    found: &[
        &[
            &LIST_CDEF, &BEGUN, &A_ABSENT, &B_ABSENT, &C_BUSY, &D_BUSY, &E_BUSY, &F_READ, &ENDED,
        ],
        &[
            &LIST_ACDEF,
            &BEGUN,
            &A_BUSY,
            &B_ABSENT,
            &C_BUSY,
            &D_BUSY,
            &E_BUSY,
            &F_READ,
            &ENDED,
        ],
        &[
            &LIST_ACDE, &BEGUN, &A_BUSY, &B_ABSENT, &C_BUSY, &D_BUSY, &E_BUSY, &F_READ, &ENDED,
        ],
        &[
            &LIST_ADE, &BEGUN, &A_BUSY, &B_ABSENT, &C_READ, &D_BUSY, &E_BUSY, &F_READ, &ENDED,
        ],
        &[
            &LIST_AE, &BEGUN, &A_BUSY, &B_ABSENT, &C_READ, &D_ABSENT, &E_BUSY, &F_READ, &ENDED,
        ],
        &[
            &LIST_AE, &BEGUN, &A_BUSY, &B_ABSENT, &C_READ, &D_ABSENT, &E_READ, &F_READ, &ENDED,
        ],
        &[
            &LIST_AE, &BEGUN, &A_BUSY, &B_READ, &C_READ, &D_ABSENT, &E_READ, &F_READ, &ENDED,
        ],
    ],
};

/// All of them.
pub const GROUPS: [Grouped; 6] = [
    PREPARES,
    COMMITS,
    COMMITS_AT_ONCE,
    PREPARES_AND_COMMIT_AT_ONCE,
    COMMIT_AND_PREPARE,
    ONE_OF_EACH,
];

impl Grouped {
    /// What the calls are told if this became of their records.
    fn told(&self, alloc: Global, became: Appending) -> Option<Vec<Told>> {
        let mut told = Vec::new(alloc);
        for (place, refused) in self.places.iter().zip(self.refused) {
            let reply = match became {
                Kept => OK,
                Refused => *refused,
                Lost => LOST,
            };
            told.push((*place, reply)).ok()?;
        }
        Some(told)
    }

    /// A manager which may be asked them.
    pub fn begun(&self, alloc: Global) -> Option<Player> {
        Player::new(alloc, LOG_BYTES)?.play(self.before)
    }

    /// Asks them; this becomes of their records.
    pub fn ask(&self, alloc: Global, player: Player, became: Appending) -> Option<Player> {
        let told = self.told(alloc, became)?;
        player.together(self.calls, &told)
    }

    /// Asks them with work on another branch between the write of their records and the sync.
    pub fn ask_apart(&self, alloc: Global, player: Player, became: Appending) -> Option<Player> {
        let told = self.told(alloc, became)?;
        player.apart(self.calls, &told)
    }

    /// Asks them, of which only the first `count` form a group, which is kept.
    pub fn ask_first(&self, alloc: Global, player: Player, count: usize) -> Option<Player> {
        let mut told = self.told(alloc, Kept)?;
        told.truncate(count);
        player.together(self.calls, &told)
    }

    /// Looks for what is found if the first `count` records stand.
    pub fn finds(&self, player: Player, count: usize) -> Option<Player> {
        player.play(self.found.get(count)?)
    }
}
