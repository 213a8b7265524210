// Documents, and statements with the verdict on each; each statement's facts are pushed after its verdict.

pub enum Kind {
    Absent,
    Named(&'static str),
    Number(u64),
}

pub struct Case {
    pub what: &'static str,
    pub document: &'static str,
    /// Issuer, subject, content type, bytes of the payload; effect and rule.
    pub entries: &'static [(&'static str, &'static str, Kind, u64, bool, u16)],
}

pub const CASES: &[Case] = &[
    Case {
        what: "the first of a subject",
        document: "850101818363676f764101583c000102030405060708090a0b0c0d0e0f101112131415161718191a1b1c1d1e1f202122232425262728292a2b2c2d2e2f303132333435363738393a3b8082831864008107831865018100",
        entries: &[
            ("i", "a", Kind::Absent, 1, false, 100),
            ("i", "a", Kind::Absent, 1, true, 101),
        ],
    },
    Case {
        what: "fewer than none",
        document: "850101818363676f764101583c000102030405060708090a0b0c0d0e0f101112131415161718191a1b1c1d1e1f202122232425262728292a2b2c2d2e2f303132333435363738393a3b808183186401820800",
        entries: &[
            ("i", "a", Kind::Absent, 1, false, 0),
            ("i", "a", Kind::Absent, 1, false, 0),
        ],
    },
    Case {
        what: "one of none",
        document: "850101818363676f764101583c000102030405060708090a0b0c0d0e0f101112131415161718191a1b1c1d1e1f202122232425262728292a2b2c2d2e2f303132333435363738393a3b8081831864018101",
        entries: &[("i", "a", Kind::Absent, 1, false, 0)],
    },
    Case {
        what: "all of none",
        document: "850101818363676f764101583c000102030405060708090a0b0c0d0e0f101112131415161718191a1b1c1d1e1f202122232425262728292a2b2c2d2e2f303132333435363738393a3b8081831864018100",
        entries: &[("i", "a", Kind::Absent, 1, true, 100)],
    },
    Case {
        what: "all",
        document: "850101818363676f764101583c000102030405060708090a0b0c0d0e0f101112131415161718191a1b1c1d1e1f202122232425262728292a2b2c2d2e2f303132333435363738393a3b80818318640183008203616982046161",
        entries: &[
            ("i", "a", Kind::Absent, 1, true, 100),
            ("j", "a", Kind::Absent, 1, false, 0),
            ("i", "b", Kind::Absent, 1, false, 0),
        ],
    },
    Case {
        what: "any",
        document: "850101818363676f764101583c000102030405060708090a0b0c0d0e0f101112131415161718191a1b1c1d1e1f202122232425262728292a2b2c2d2e2f303132333435363738393a3b80818318640183018203616982046161",
        entries: &[
            ("i", "a", Kind::Absent, 1, true, 100),
            ("j", "a", Kind::Absent, 1, true, 100),
            ("i", "b", Kind::Absent, 1, true, 100),
            ("j", "b", Kind::Absent, 1, false, 0),
        ],
    },
    Case {
        what: "not",
        document: "850101818363676f764101583c000102030405060708090a0b0c0d0e0f101112131415161718191a1b1c1d1e1f202122232425262728292a2b2c2d2e2f303132333435363738393a3b808183186401820282036169",
        entries: &[
            ("i", "a", Kind::Absent, 1, false, 0),
            ("j", "a", Kind::Absent, 1, true, 100),
        ],
    },
    Case {
        what: "the issuer is this text, and no longer one",
        document: "850101818363676f764101583c000102030405060708090a0b0c0d0e0f101112131415161718191a1b1c1d1e1f202122232425262728292a2b2c2d2e2f303132333435363738393a3b808183186401820362696a",
        entries: &[
            ("ij", "a", Kind::Absent, 1, true, 100),
            ("i", "a", Kind::Absent, 1, false, 0),
            ("ijk", "a", Kind::Absent, 1, false, 0),
        ],
    },
    Case {
        what: "the subject begins with these bytes",
        document: "850101818363676f764101583c000102030405060708090a0b0c0d0e0f101112131415161718191a1b1c1d1e1f202122232425262728292a2b2c2d2e2f303132333435363738393a3b8081831864018204626162",
        entries: &[
            ("i", "ab", Kind::Absent, 1, true, 100),
            ("i", "abc", Kind::Absent, 1, true, 100),
            ("i", "a", Kind::Absent, 1, false, 0),
            ("i", "xab", Kind::Absent, 1, false, 0),
        ],
    },
    Case {
        what: "each subject begins with no bytes",
        document: "850101818363676f764101583c000102030405060708090a0b0c0d0e0f101112131415161718191a1b1c1d1e1f202122232425262728292a2b2c2d2e2f303132333435363738393a3b808183186401820460",
        entries: &[("i", "a", Kind::Absent, 1, true, 100)],
    },
    Case {
        what: "the content type is a text",
        document: "850101818363676f764101583c000102030405060708090a0b0c0d0e0f101112131415161718191a1b1c1d1e1f202122232425262728292a2b2c2d2e2f303132333435363738393a3b80818318640182056174",
        entries: &[
            ("i", "a", Kind::Named("t"), 1, true, 100),
            ("i", "a", Kind::Named("tt"), 1, false, 0),
            ("i", "a", Kind::Absent, 1, false, 0),
            ("i", "a", Kind::Number(5), 1, false, 0),
        ],
    },
    Case {
        what: "a payload of at most 3 bytes",
        document: "850101818363676f764101583c000102030405060708090a0b0c0d0e0f101112131415161718191a1b1c1d1e1f202122232425262728292a2b2c2d2e2f303132333435363738393a3b808183186401820603",
        entries: &[
            ("i", "a", Kind::Absent, 2, true, 100),
            ("i", "a", Kind::Absent, 3, true, 100),
            ("i", "a", Kind::Absent, 4, false, 0),
        ],
    },
    Case {
        what: "a payload of at most the largest number",
        document: "850101818363676f764101583c000102030405060708090a0b0c0d0e0f101112131415161718191a1b1c1d1e1f202122232425262728292a2b2c2d2e2f303132333435363738393a3b80818318640182061bffffffffffffffff",
        entries: &[("i", "a", Kind::Absent, 4194304, true, 100)],
    },
    Case {
        what: "first of the subject, whoever the issuer",
        document: "850101818363676f764101583c000102030405060708090a0b0c0d0e0f101112131415161718191a1b1c1d1e1f202122232425262728292a2b2c2d2e2f303132333435363738393a3b8081831864018107",
        entries: &[
            ("i", "a", Kind::Absent, 1, true, 100),
            ("j", "a", Kind::Absent, 1, false, 0),
            ("j", "b", Kind::Absent, 1, true, 100),
            (
                "i",
                "b",
                Kind::Named("application/vnd.scitt-policy+cbor"),
                1,
                false,
                0,
            ),
        ],
    },
    Case {
        what: "after a policy statement with the subject, and after other statements",
        document: "850101818363676f764101583c000102030405060708090a0b0c0d0e0f101112131415161718191a1b1c1d1e1f202122232425262728292a2b2c2d2e2f303132333435363738393a3b8081831864018107",
        entries: &[
            (
                "g",
                "a",
                Kind::Named("application/vnd.scitt-policy+cbor"),
                1,
                true,
                100,
            ),
            (
                "g",
                "b",
                Kind::Named("application/vnd.scitt-policy+cbor"),
                1,
                true,
                100,
            ),
            ("i", "a", Kind::Absent, 1, false, 0),
            (
                "g",
                "c",
                Kind::Named("application/vnd.scitt-policy+cbor"),
                2,
                true,
                100,
            ),
            ("i", "c", Kind::Absent, 1, false, 0),
        ],
    },
    Case {
        what: "fewer than 2 of the issuer",
        document: "850101818363676f764101583c000102030405060708090a0b0c0d0e0f101112131415161718191a1b1c1d1e1f202122232425262728292a2b2c2d2e2f303132333435363738393a3b808183186401820802",
        entries: &[
            ("i", "a", Kind::Absent, 1, true, 100),
            ("j", "a", Kind::Absent, 1, true, 100),
            (
                "i",
                "b",
                Kind::Named("application/vnd.scitt-policy+cbor"),
                1,
                true,
                100,
            ),
            ("i", "c", Kind::Absent, 1, false, 0),
            ("j", "c", Kind::Absent, 1, true, 100),
            ("j", "d", Kind::Absent, 1, false, 0),
        ],
    },
    Case {
        what: "an earlier one of this issuer on the subject",
        document: "850101818363676f764101583c000102030405060708090a0b0c0d0e0f101112131415161718191a1b1c1d1e1f202122232425262728292a2b2c2d2e2f303132333435363738393a3b8081831864018209616a",
        entries: &[
            ("i", "a", Kind::Absent, 1, false, 0),
            ("j", "a", Kind::Absent, 1, false, 0),
            ("i", "a", Kind::Absent, 1, true, 100),
            ("i", "b", Kind::Absent, 1, false, 0),
            (
                "i",
                "a",
                Kind::Named("application/vnd.scitt-policy+cbor"),
                1,
                true,
                100,
            ),
        ],
    },
    Case {
        what: "the first that holds, and not the last",
        document: "850101818363676f764101583c000102030405060708090a0b0c0d0e0f101112131415161718191a1b1c1d1e1f202122232425262728292a2b2c2d2e2f303132333435363738393a3b80838319012c018203616a8318c80082046161831864018100",
        entries: &[
            ("i", "a", Kind::Absent, 1, false, 200),
            ("i", "b", Kind::Absent, 1, true, 100),
            ("j", "a", Kind::Absent, 1, true, 300),
        ],
    },
    Case {
        what: "no rules",
        document: "850101818363676f764101583c000102030405060708090a0b0c0d0e0f101112131415161718191a1b1c1d1e1f202122232425262728292a2b2c2d2e2f303132333435363738393a3b8080",
        entries: &[("i", "a", Kind::Absent, 1, false, 0)],
    },
    Case {
        what: "parts of parts",
        document: "850101818363676f764101583c000102030405060708090a0b0c0d0e0f101112131415161718191a1b1c1d1e1f202122232425262728292a2b2c2d2e2f303132333435363738393a3b8081831864018300830182036169820281078202830082056174820601",
        entries: &[
            ("i", "a", Kind::Named("t"), 1, false, 0),
            ("i", "a", Kind::Named("t"), 2, true, 100),
            ("j", "b", Kind::Absent, 1, false, 0),
            ("j", "b", Kind::Absent, 1, true, 100),
        ],
    },
];
