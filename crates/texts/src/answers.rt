// The answers: their numbers, and the one table of their names.
ghost use Rattle.std.specs.Prelude.{◌≡◌};
ghost use Rattle.texts.specs.Answers.{refusal_number, answer_number, name_of};

// The answer of a call that is done: a number, as `why` and what is printed speak of answers.
pub const OK: u8 = 0;

// Why a call is refused. Each refusal stands at its number.
#[derive(Clone, Copy, Debug, PartialEq, Eq)]
pub enum Refusal {
    Form = 1,
    Shop,
    Oneself,
    Range,
    Deps,
    Number,
    Full,
    Busy,
    Short,
    Usedup,
    Room,
    Twin,
    State,
}

impl From<Refusal> for u8 {
    ghost from_gives = { λ refusal number. number ≡ refusal_number refusal };

    fn from(refusal: Refusal) -> u8 {
        refusal as u8
    }
}

// The number of an answer.
pub fn number_of<T: Copy>(answer: Result<T, Refusal>) -> u8
    ensures { result ≡ answer_number answer }
{
    match answer {
        Ok(_) => OK,
        Err(refusal) => u8::from(refusal),
    }
}

// How many answers there are, and the places that a name has.
const ANSWERS: usize = 14;

pub const NAME_PLACES: usize = 8;

// The name of an answer: `len` bytes, zeros after them. The rules name the form of this table: eight-byte names with lengths, indexed
// by the answer's number, so `why` takes the number.
#[derive(Clone, Copy)]
pub struct Name {
    pub bytes: [u8; NAME_PLACES],
    pub len: usize,
}

const NAMES: [Name; ANSWERS] = [
    Name {
        bytes: *b"ok\0\0\0\0\0\0",
        len: 2,
    },
    Name {
        bytes: *b"form\0\0\0\0",
        len: 4,
    },
    Name {
        bytes: *b"shop\0\0\0\0",
        len: 4,
    },
    Name {
        bytes: *b"self\0\0\0\0",
        len: 4,
    },
    Name {
        bytes: *b"range\0\0\0",
        len: 5,
    },
    Name {
        bytes: *b"deps\0\0\0\0",
        len: 4,
    },
    Name {
        bytes: *b"number\0\0",
        len: 6,
    },
    Name {
        bytes: *b"full\0\0\0\0",
        len: 4,
    },
    Name {
        bytes: *b"busy\0\0\0\0",
        len: 4,
    },
    Name {
        bytes: *b"short\0\0\0",
        len: 5,
    },
    Name {
        bytes: *b"usedup\0\0",
        len: 6,
    },
    Name {
        bytes: *b"room\0\0\0\0",
        len: 4,
    },
    Name {
        bytes: *b"twin\0\0\0\0",
        len: 4,
    },
    Name {
        bytes: *b"state\0\0\0",
        len: 5,
    },
];

// The name of an answer's number; past the table it is empty.
pub fn why(answer: u8) -> Name
    ensures { result ≡ name_of answer }
{
    let i = answer as usize;
    if i < ANSWERS {
        return NAMES[i];
    }
    Name {
        bytes: [0u8; NAME_PLACES],
        len: 0,
    }
}
