//! The table of moves and the words, as the documents print them.
use regression_state::{IllegalMove, State, may_move, read_state};
use test_supplies::STATES;

// One row a state, one column a state, in the order of the list.
const MOVES: [[u8; 7]; 7] = [
    *b".xx.x..",
    *b"x.xxx..",
    *b"...xxx.",
    *b"..x....",
    *b"x.x....",
    *b"..x...x",
    *b"..x....",
];

// Words and what they are read as.
const WORDS: [(&[u8], Option<State>); 11] = [
    (b"detected", Some(State::Detected)),
    (b"staged", Some(State::Staged)),
    (b"active", Some(State::Active)),
    (b"not_to_be_fixed", Some(State::NotToBeFixed)),
    (b"ignored", Some(State::Ignored)),
    (b"verify", Some(State::Verify)),
    (b"fixed", Some(State::Fixed)),
    (b"", None),
    (b"Fixed", None),
    (b"fixed ", None),
    (b"not_to_be_fixe", None),
];

// Whether a state may become another, or else stays and says so.
fn moves(from: State, to: State, allowed: bool) -> bool {
    let mut state = from;
    let moved = state.move_to(to);
    may_move(from, to) == allowed
        && if allowed {
            moved == Ok(()) && state == to
        } else {
            moved == Err(IllegalMove { from, to }) && state == from
        }
}

// Whether a word is read so, and written again.
fn reads(word: &[u8], state: Option<State>) -> bool {
    read_state(word) == state
        && match state {
            Some(state) => state.word().as_bytes() == word,
            None => true,
        }
}

#[test]
fn moves_and_words(rt: HostRuntime) {
    for (i, from) in STATES.iter().enumerate() {
        for (j, to) in STATES.iter().enumerate() {
            assert!(rt;
                moves(*from, *to, MOVES[i][j] == b'x'),
                "{from:?} to {to:?}"
            );
        }
    }
    for (word, state) in &WORDS {
        assert!(rt; reads(word, *state), "{word:?}");
    }
}
