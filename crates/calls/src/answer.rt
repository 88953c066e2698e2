// Answers as document 01's numbers.
ghost use Rattle.std.specs.Prelude.{◌≡◌};
ghost use Rattle.calls.specs.Answers.{plain, code_of};

use crate::types::Answer;

// An answer's number, and the value it carries: the port of 19 and 21, the link bits of init_control's 0, else 0. Numbers, since C and
// the log have them.
#[derive(Clone, Copy, PartialEq, Eq)]
pub struct Code {
    pub number: u32,
    pub value: u32,
}

pub fn plain(number: u32) -> Code
    ensures { result ≡ plain number }
{
    Code { number, value: 0 }
}

impl From<Answer> for Code {
    ghost from_gives = { λ answer code. code ≡ code_of answer };

    #[tactic(auto, unfolding(crate::specs::Answers::code_of))]
    fn from(answer: Answer) -> Code {
        match answer {
            Answer::Done => plain(0),
            Answer::LinkBits(bits) => Code {
                number: 0,
                value: bits,
            },
            Answer::UpcallWanted => plain(1),
            Answer::LinkAbandoned => plain(2),
            Answer::BadPort => plain(3),
            Answer::NotBound => plain(4),
            Answer::AlreadyBound => plain(5),
            Answer::OutsideArray => plain(6),
            Answer::StillLinked => plain(7),
            Answer::BadPriority => plain(8),
            Answer::AlreadyGiven => plain(9),
            Answer::NotGiven => plain(10),
            Answer::BadFrame => plain(11),
            Answer::BadOffset => plain(12),
            Answer::TooManyPages => plain(13),
            Answer::NoEntry => plain(14),
            Answer::CallUnderWay => plain(15),
            Answer::NoCall => plain(16),
            Answer::BadVcpu => plain(17),
            Answer::BadIndex => plain(18),
            Answer::HandedOver(port) => Code {
                number: 19,
                value: port.0,
            },
            Answer::NothingReady => plain(20),
            Answer::Taken(port) => Code {
                number: 21,
                value: port.0,
            },
            Answer::CallUnmask => plain(35),
        }
    }
}
