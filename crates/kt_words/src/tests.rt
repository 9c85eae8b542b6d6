use crate::laws::{
    access_words, fields_are_exact, head_words, others_stay, pairs, places_are_inside,
    places_differ, post_words, set_is_read, state_words, zero_is_empty,
};
use crate::{
    HeadWord, Layout, Pair, Post, StateWord, fields, pack_access, pack_head, pack_pair, pack_post,
    pack_state, unpack_access, unpack_head, unpack_pair, unpack_post, unpack_state,
};
use kt_law::{Access, Mode, Op, Stand};

#[test]
fn layouts_have_their_sizes_and_places(rt: HostRuntime) {
    let least = Layout {
        workers: 1,
        objects: 0,
        elements: 0,
    };
    assert_eq!(rt; least.total(), 344_076);
    let greatest = Layout {
        workers: 8,
        objects: 4_096,
        elements: 1_048_576,
    };
    assert_eq!(rt; greatest.total(), 3_805_252);
    for (place, number) in [
        (greatest.tasks_drawn(), 1),
        (greatest.positions_drawn(), 2),
        (greatest.stop(), 3),
        (greatest.request(0), 4),
        (greatest.post(7), 61),
        (greatest.answer(7), 62),
        (greatest.interval(7), 63),
        (greatest.home(7), 64),
        (greatest.field(0, fields::STATE), 68),
        (greatest.field(131_071, fields::FIRST_ACCESS + 7), 2_752_579),
        (greatest.element(0), 2_752_580),
        (greatest.version(0), 3_801_156),
        (greatest.version(4_095), 3_805_251),
    ] {
        assert_eq!(rt; place, number);
    }
}

#[test]
fn states_have_their_words(rt: HostRuntime) {
    let state = StateWord {
        frame: 2,
        fork: 3,
        stand: Stand::Running(5),
    };
    assert_eq!(rt; pack_state(&state), 16_777_451);
    for (word, stand) in [
        (8_388_673, Stand::Unclaimed),
        (8_388_682, Stand::Given(1)),
        (8_388_676, Stand::Finished),
    ] {
        assert_eq!(rt;
            unpack_state(word),
            Some(StateWord {
                frame: 1,
                fork: 1,
                stand
            }),
            "{word}"
        );
    }
    assert_eq!(rt;
        unpack_state(0),
        Some(StateWord {
            frame: 0,
            fork: 0,
            stand: Stand::Empty
        })
    );
    for word in [8, 64, 8_388_608, 8_388_681, 8_388_684, 8_388_677, 8_388_679] {
        assert_eq!(rt; unpack_state(word), None, "{word}");
    }
}

#[test]
fn heads_have_their_words(rt: HostRuntime) {
    let head = HeadWord {
        task: 3,
        depth: 2,
        number: 1,
        ints: 8,
        accesses: 7,
    };
    assert_eq!(rt; pack_head(&head), 0x78_0000_0042_0003);
    assert_eq!(rt; unpack_head(0x78_0000_0042_0003), Some(head));
    for word in [9 << 48, 9 << 52, 1 << 56] {
        assert_eq!(rt; unpack_head(word), None, "{word}");
    }
}

#[test]
fn pairs_have_their_words(rt: HostRuntime) {
    let pair = Pair { low: 7, high: 5 };
    assert_eq!(rt; pack_pair(&pair), 0x5_0000_0007);
    assert_eq!(rt; unpack_pair(0x5_0000_0007), Some(pair));
}

#[test]
fn posts_have_their_words(rt: HostRuntime) {
    for (post, word) in [
        (Post::Idle, 0),
        (Post::Posted(7), 57),
        (Post::Held(1), 10),
        (Post::Failed, 3),
        (Post::Task(131_071), 1_048_572),
        (Post::Piece(0), 5),
    ] {
        assert_eq!(rt; pack_post(&post), word, "{post:?}");
        assert_eq!(rt; unpack_post(word), Some(post), "{word}");
    }
    for word in [6, 7, 8, 11, 0x8_0000_0001] {
        assert_eq!(rt; unpack_post(word), None, "{word}");
    }
}

#[test]
fn accesses_have_their_words(rt: HostRuntime) {
    let access = Access {
        lo: 1,
        hi: 2,
        mode: Mode::Cw(Op::Max),
    };
    assert_eq!(rt; pack_access(&access), 20_890_723_024_897);
    assert_eq!(rt; unpack_access(20_890_723_024_897), Some(access));
    assert_eq!(rt;
        unpack_access(0),
        Some(Access {
            lo: 0,
            hi: 0,
            mode: Mode::R
        })
    );
    for word in [1, 1 << 43, 3 << 40 | 6 << 43, 1 << 46] {
        assert_eq!(rt; unpack_access(word), None, "{word}");
    }
}

#[test]
fn laws_have_callers() {
    places_differ();
    places_are_inside();
    set_is_read();
    others_stay();
    fields_are_exact();
    state_words();
    head_words();
    pairs();
    post_words();
    access_words();
    zero_is_empty();
}
