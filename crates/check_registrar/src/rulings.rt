// Which statements a log denies, and when it has no room or no index left.
use crate::told::{ALG, MOMENT, is_told};
use std::test::Fail;
use test_plays::{Act, Drafted, Play, Step};

// The lengths of the logged forms are 8907, 8732 and 8732.
const ONE: Play = Play {
    drafts: &[
        Drafted::Genesis,
        Drafted::Issued {
            index: 0,
            alg: ALG,
            payload: &[0],
        },
        Drafted::Issued {
            index: 2,
            alg: &[0x26],
            payload: &[2],
        },
    ],
    max_entries: 1,
    block: 4,
    fails: &[],
    acts: &[Act::Made(&[
        Step::Judge(0, MOMENT),
        Step::Judge(1, MOMENT + 1),
        Step::Judge(2, MOMENT + 2),
        Step::Judge(0, MOMENT + 3),
        Step::Counts,
    ])],
};

const ONE_TOLD: &str = "admitted 0
full 1 17639
denied 2 1 1700000002
known 0
counts 1 3 1 0
file e1f824d82299605e6a45831148d9d1641bb3d2310471b76153bfbbe173a2f1d4
";

#[test]
fn a_full_log_still_judges(rt: HostRuntime) -> Result<(), Fail> {
    is_told(&rt, rt.alloc(), &ONE, ONE_TOLD)
}

const TWO: Play = Play {
    drafts: &[
        Drafted::Genesis,
        Drafted::Issued {
            index: 0,
            alg: ALG,
            payload: &[0],
        },
        Drafted::Issued {
            index: 1,
            alg: ALG,
            payload: &[1],
        },
        Drafted::Issued {
            index: 2,
            alg: &[0x26],
            payload: &[2],
        },
    ],
    max_entries: 2,
    block: 4,
    fails: &[],
    acts: &[Act::Made(&[
        Step::Judge(0, MOMENT),
        Step::Judge(1, MOMENT + 1),
        Step::Judge(2, MOMENT + 1),
        Step::Judge(3, MOMENT),
        Step::Judge(1, MOMENT + 3),
        Step::Counts,
    ])],
};

const TWO_TOLD: &str = "admitted 0
admitted 1
full 2 26371
denied 2 2 1700000001
known 1
counts 2 4 2 0
file 2c6b826695f30baa92ee5ebe29fbf0921a5fceb6c6dedce50722bfd8aa205b55
";

#[test]
fn two_entries_fill_a_log(rt: HostRuntime) -> Result<(), Fail> {
    is_told(&rt, rt.alloc(), &TWO, TWO_TOLD)
}

// Of two policies of version 2 the first one is taken, and it removes the issuer.
const POLICIES: Play = Play {
    drafts: &[
        Drafted::Ruled {
            index: 4,
            payload: &[0],
        },
        Drafted::Genesis,
        Drafted::Removing {
            version: 1,
            index: 1,
        },
        Drafted::Issued {
            index: 0,
            alg: ALG,
            payload: &[0],
        },
        Drafted::Removing {
            version: 2,
            index: 2,
        },
        Drafted::Counting {
            version: 2,
            below: 100,
            index: 3,
        },
        Drafted::Issued {
            index: 1,
            alg: ALG,
            payload: &[1],
        },
    ],
    max_entries: 100,
    block: 4,
    fails: &[],
    acts: &[Act::Made(&[
        Step::Judge(0, 1_000),
        Step::Judge(1, 1_000),
        Step::Judge(2, 1_000),
        Step::Judge(3, 1_001),
        Step::Judge(4, 1_002),
        Step::Judge(5, 1_002),
        Step::Judge(6, 1_001),
        Step::Judge(3, 1_001),
        Step::Counts,
    ])],
};

const POLICIES_TOLD: &str = "denied 8 0 1000
admitted 0
denied 9 1 1000
admitted 1
admitted 2
denied 9 3 1002
denied 4 3 1002
known 1
counts 3 5 3 0
file 43708d9c24336ee2346ee3821ff7ac8b1a6a287a69341cb9152f1e03ac4fd724
";

#[test]
fn policies_follow_each_other(rt: HostRuntime) -> Result<(), Fail> {
    is_told(&rt, rt.alloc(), &POLICIES, POLICIES_TOLD)
}

// The issuer says a policy, and the governor signs in the issuer's name.
const KEYS: Play = Play {
    drafts: &[
        Drafted::Genesis,
        Drafted::Usurped {
            index: 5,
            payload: &[0],
        },
        Drafted::Forged {
            index: 4,
            payload: &[0],
        },
    ],
    max_entries: 100,
    block: 4,
    fails: &[],
    acts: &[Act::Made(&[
        Step::Judge(1, 1_000),
        Step::Judge(0, 1_000),
        Step::Judge(1, 1_000),
        Step::Judge(2, 1_000),
    ])],
};

const KEYS_TOLD: &str = "denied 3 0 1000
admitted 0
denied 3 1 1000
denied 5 1 1000
file 2af40bd517e7b5117b179f4994b77eebf9e73a16cc558c3fcd870e1316d834bb
";

#[test]
fn each_key_signs_what_is_its_own(rt: HostRuntime) -> Result<(), Fail> {
    is_told(&rt, rt.alloc(), &KEYS, KEYS_TOLD)
}

// The rule is `[100, 1, [8, 1]]`, and the judged moment never falls.
const COUNTING: Play = Play {
    drafts: &[
        Drafted::Counting {
            version: 1,
            below: 1,
            index: 0,
        },
        Drafted::Issued {
            index: 0,
            alg: ALG,
            payload: &[0],
        },
        Drafted::Issued {
            index: 1,
            alg: ALG,
            payload: &[1],
        },
    ],
    max_entries: 100,
    block: 64,
    fails: &[],
    acts: &[Act::Made(&[
        Step::Judge(0, 1_000),
        Step::Judge(1, 1_000),
        Step::Judge(2, 990),
    ])],
};

const COUNTING_TOLD: &str = "admitted 0
admitted 1
denied 0 2 1000
file 462d4ad1d360eb1e5dd8191fe9a82fe42ada648beb0be681abe028fbc781a293
";

#[test]
fn a_count_is_of_the_entries_before(rt: HostRuntime) -> Result<(), Fail> {
    is_told(&rt, rt.alloc(), &COUNTING, COUNTING_TOLD)
}

// The policy, and 32 statements that it admits, under a key of 32 indices.
const MANY: Play = Play {
    drafts: &[
        Drafted::Genesis,
        Drafted::Issued {
            index: 0,
            alg: ALG,
            payload: &[0],
        },
        Drafted::Issued {
            index: 1,
            alg: ALG,
            payload: &[1],
        },
        Drafted::Issued {
            index: 2,
            alg: ALG,
            payload: &[2],
        },
        Drafted::Issued {
            index: 3,
            alg: ALG,
            payload: &[3],
        },
        Drafted::Issued {
            index: 4,
            alg: ALG,
            payload: &[4],
        },
        Drafted::Issued {
            index: 5,
            alg: ALG,
            payload: &[5],
        },
        Drafted::Issued {
            index: 6,
            alg: ALG,
            payload: &[6],
        },
        Drafted::Issued {
            index: 7,
            alg: ALG,
            payload: &[7],
        },
        Drafted::Issued {
            index: 8,
            alg: ALG,
            payload: &[8],
        },
        Drafted::Issued {
            index: 9,
            alg: ALG,
            payload: &[9],
        },
        Drafted::Issued {
            index: 10,
            alg: ALG,
            payload: &[10],
        },
        Drafted::Issued {
            index: 11,
            alg: ALG,
            payload: &[11],
        },
        Drafted::Issued {
            index: 12,
            alg: ALG,
            payload: &[12],
        },
        Drafted::Issued {
            index: 13,
            alg: ALG,
            payload: &[13],
        },
        Drafted::Issued {
            index: 14,
            alg: ALG,
            payload: &[14],
        },
        Drafted::Issued {
            index: 15,
            alg: ALG,
            payload: &[15],
        },
        Drafted::Issued {
            index: 16,
            alg: ALG,
            payload: &[16],
        },
        Drafted::Issued {
            index: 17,
            alg: ALG,
            payload: &[17],
        },
        Drafted::Issued {
            index: 18,
            alg: ALG,
            payload: &[18],
        },
        Drafted::Issued {
            index: 19,
            alg: ALG,
            payload: &[19],
        },
        Drafted::Issued {
            index: 20,
            alg: ALG,
            payload: &[20],
        },
        Drafted::Issued {
            index: 21,
            alg: ALG,
            payload: &[21],
        },
        Drafted::Issued {
            index: 22,
            alg: ALG,
            payload: &[22],
        },
        Drafted::Issued {
            index: 23,
            alg: ALG,
            payload: &[23],
        },
        Drafted::Issued {
            index: 24,
            alg: ALG,
            payload: &[24],
        },
        Drafted::Issued {
            index: 25,
            alg: ALG,
            payload: &[25],
        },
        Drafted::Issued {
            index: 26,
            alg: ALG,
            payload: &[26],
        },
        Drafted::Issued {
            index: 27,
            alg: ALG,
            payload: &[27],
        },
        Drafted::Issued {
            index: 28,
            alg: ALG,
            payload: &[28],
        },
        Drafted::Issued {
            index: 29,
            alg: ALG,
            payload: &[29],
        },
        Drafted::Issued {
            index: 30,
            alg: ALG,
            payload: &[30],
        },
        Drafted::Issued {
            index: 31,
            alg: ALG,
            payload: &[31],
        },
    ],
    max_entries: 100,
    block: 64,
    fails: &[],
    acts: &[Act::Made(&[
        Step::Judge(0, 1_000),
        Step::Judge(1, 1_000),
        Step::Judge(2, 1_000),
        Step::Judge(3, 1_000),
        Step::Judge(4, 1_000),
        Step::Judge(5, 1_000),
        Step::Judge(6, 1_000),
        Step::Judge(7, 1_000),
        Step::Judge(8, 1_000),
        Step::Judge(9, 1_000),
        Step::Judge(10, 1_000),
        Step::Judge(11, 1_000),
        Step::Judge(12, 1_000),
        Step::Judge(13, 1_000),
        Step::Judge(14, 1_000),
        Step::Judge(15, 1_000),
        Step::Judge(16, 1_000),
        Step::Judge(17, 1_000),
        Step::Judge(18, 1_000),
        Step::Judge(19, 1_000),
        Step::Judge(20, 1_000),
        Step::Judge(21, 1_000),
        Step::Judge(22, 1_000),
        Step::Judge(23, 1_000),
        Step::Judge(24, 1_000),
        Step::Judge(25, 1_000),
        Step::Judge(26, 1_000),
        Step::Judge(27, 1_000),
        Step::Judge(28, 1_000),
        Step::Judge(29, 1_000),
        Step::Judge(30, 1_000),
        Step::Judge(31, 1_000),
        Step::Judge(32, 1_000),
        Step::Counts,
    ])],
};

// The records are the header, one reservation and 32 entries.
const MANY_TOLD: &str = "admitted 0
admitted 1
admitted 2
admitted 3
admitted 4
admitted 5
admitted 6
admitted 7
admitted 8
admitted 9
admitted 10
admitted 11
admitted 12
admitted 13
admitted 14
admitted 15
admitted 16
admitted 17
admitted 18
admitted 19
admitted 20
admitted 21
admitted 22
admitted 23
admitted 24
admitted 25
admitted 26
admitted 27
admitted 28
admitted 29
admitted 30
admitted 31
spent 32 32
counts 32 34 32 0
file d691fc3c1e30973ea233f95d5385db462642e172a30fc51b147637bf152417c0
";

#[test]
fn thirty_two_indices_are_spent(rt: HostRuntime) -> Result<(), Fail> {
    is_told(&rt, rt.alloc(), &MANY, MANY_TOLD)
}
