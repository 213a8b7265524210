// A log from its beginning, over a stop, to its second entry.
use crate::told::{ALG, MOMENT, is_told};
use std::test::Fail;
use test_plays::{Act, Drafted, Play, Step};

// The algorithms are -46, -7 and none, before a policy names the issuer.
const STRANGERS: Play = Play {
    drafts: &[
        Drafted::Issued {
            index: 0,
            alg: ALG,
            payload: &[0],
        },
        Drafted::Issued {
            index: 0,
            alg: &[0x26],
            payload: &[0],
        },
        Drafted::Issued {
            index: 0,
            alg: &[],
            payload: &[0],
        },
    ],
    max_entries: 100,
    block: 4,
    fails: &[],
    acts: &[Act::Made(&[
        Step::Counts,
        Step::Policy,
        Step::Keys,
        Step::Judge(0, MOMENT),
        Step::Judge(1, MOMENT),
        Step::Judge(2, MOMENT),
    ])],
};

// Counts, policy and keys of a new log, and three denials.
const NEW: &str = "counts 0 1 0 0
83ce4b2b8c81f3651a84b2d8839984f59fc21788b4da07f426788ec58b728bf8
d33f0ee9f00e46111a25636c131ae560d8f6b44da98e0b860f47b8681901f6dc
denied 4 0 1700000000
denied 2 0 1700000000
denied 2 0 1700000000
file ec5a9f2717dc2df79b40f7954a376077b5b7ba6e4803941e4495e2892ffafdc9
";

#[test]
fn begins_judges_and_answers(rt: HostRuntime) -> Result<(), Fail> {
    is_told(&rt, rt.alloc(), &STRANGERS, NEW)
}

// The first entry, by what is read back of it.
const GENESIS: Play = Play {
    drafts: &[Drafted::Genesis],
    max_entries: 100,
    block: 4,
    fails: &[],
    acts: &[Act::Made(&[
        Step::Register(0, MOMENT),
        Step::Register(0, MOMENT + 5),
        Step::Counts,
        Step::Receipt(0),
        Step::Receipt(1),
        Step::Receipt(5),
        Step::Statement(0),
        Step::Statement(1),
        Step::Statement(5),
        Step::Consistency(0),
        Step::Consistency(1),
        Step::Consistency(3),
        Step::Policy,
    ])],
};

const FIRST: &str = "admitted 0 5ce6378934486cd6513ec24957307b23e65e496cb74626f065a0be11a2ac6b1e
known 0 5ce6378934486cd6513ec24957307b23e65e496cb74626f065a0be11a2ac6b1e
counts 1 3 1 0
5ce6378934486cd6513ec24957307b23e65e496cb74626f065a0be11a2ac6b1e
no entry 1 1
no entry 5 1
5dc3253dea553f89dc950d2bc9736c39731c85e04f27da5115a2174ea66ad7f3
no entry 1 1
no entry 5 1
no size 0 1
83175765ab916810105b57b31f04046197e9b9fc806c77c81e84d17bec5ad5ec
no size 3 1
9a87595a6fdbab5fc8f92494c197e80a987b88e5004a97da95107229df36ae0b
file ce3568314758cf6063bfb7d87175c585cc7cef8b12822c45fa9c31a79852d512
";

#[test]
fn admits_its_policy_and_reads_it_back(rt: HostRuntime) -> Result<(), Fail> {
    is_told(&rt, rt.alloc(), &GENESIS, FIRST)
}

const ANOTHER_SEED: Play = Play {
    drafts: &[Drafted::Genesis],
    max_entries: 100,
    block: 4,
    fails: &[],
    acts: &[
        Act::Made(&[Step::Register(0, MOMENT)]),
        Act::LoadedByAnother,
    ],
};

// The key that is kept, and the one that another seed derives.
const WRONG: &str = "admitted 0 5ce6378934486cd6513ec24957307b23e65e496cb74626f065a0be11a2ac6b1e
wrong key 00000001000000050000000109090909090909090909090909090909696bbbe510d5abb9b6fe439714503b25807a45adeabea982b9e30f52337aae3c 00000001000000050000000109090909090909090909090909090909f1e2c7acb94844712c56762625a3210243543c5f8b3cd82feb8f30767242b9c8
file ce3568314758cf6063bfb7d87175c585cc7cef8b12822c45fa9c31a79852d512
";

#[test]
fn refuses_another_seed(rt: HostRuntime) -> Result<(), Fail> {
    is_told(&rt, rt.alloc(), &ANOTHER_SEED, WRONG)
}

// The block is 4: the first entry has the signing index 0, and after the stop the second one has 4.
const AFTER_A_STOP: Play = Play {
    drafts: &[
        Drafted::Genesis,
        Drafted::Issued {
            index: 0,
            alg: ALG,
            payload: &[0],
        },
    ],
    max_entries: 100,
    block: 4,
    fails: &[],
    acts: &[
        Act::Made(&[Step::Register(0, MOMENT)]),
        Act::Loaded(&[
            Step::Counts,
            Step::Register(1, MOMENT + 1),
            Step::Register(1, MOMENT + 9),
            Step::Counts,
            Step::Receipt(0),
            Step::Receipt(1),
            Step::Receipt(5),
            Step::Statement(0),
            Step::Statement(1),
            Step::Statement(5),
            Step::Consistency(0),
            Step::Consistency(1),
            Step::Consistency(2),
            Step::Consistency(3),
        ]),
    ],
};

const SECOND: &str = "admitted 0 5ce6378934486cd6513ec24957307b23e65e496cb74626f065a0be11a2ac6b1e
counts 1 3 4 0
admitted 1 5097283dd7347d2ad6dcdf48da62086645f9ec1923532be26a8dc5fbbcdce36b
known 1 5097283dd7347d2ad6dcdf48da62086645f9ec1923532be26a8dc5fbbcdce36b
counts 2 5 5 0
5ce6378934486cd6513ec24957307b23e65e496cb74626f065a0be11a2ac6b1e
5097283dd7347d2ad6dcdf48da62086645f9ec1923532be26a8dc5fbbcdce36b
no entry 5 2
5dc3253dea553f89dc950d2bc9736c39731c85e04f27da5115a2174ea66ad7f3
7dadc949f7fb97a103a5189e4383aa24f3c6201ee1631957fa9c30621c4e3700
no entry 5 2
no size 0 2
6089cbf2602c278f8c94c6c5b5a9468b3cf6e810d4eb341d57106caca4877f12
f492ac9283628bd279407395a15c590d8883e3a93dcd49c2d2d299266758b1bd
no size 3 2
file 442ba6af7ec4986482c1a5f04848e500f0083944a016aac042ab0620b3fe7039
";

#[test]
fn goes_on_from_its_reservation_after_a_stop(rt: HostRuntime) -> Result<(), Fail> {
    is_told(&rt, rt.alloc(), &AFTER_A_STOP, SECOND)
}
