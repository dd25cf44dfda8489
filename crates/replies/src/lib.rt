// An answer as numbers, and back: for callers that print it, or hand it on to those that know no enums.
#![tactic(auto)]

ghost use Rattle.std.specs.Prelude.{◌≡◌};
ghost use Rattle.rules.specs.Means.{number_of};
ghost use Rattle.replies.specs.Codes.{said_plainly, said_by, said_of, answer_by};

use rules::{Refused, Reply, SharedRun};

// The number of a refusal in the tables of 01 and 02.
pub fn number(why: Refused) -> u32
    ensures { result ≡ number_of why }
{
    why as u32
}

// What kind of answer it is, as the C calls number the kinds, its number (0 where it has none), and of a wait the shared run.
#[derive(Clone, Copy)]
pub struct Said {
    pub code: u32,
    pub number: u32,
    pub run: Option<SharedRun>,
}

// an answer with no run
fn plain(code: u32, number: u32) -> Said
    ensures { result ≡ said_plainly code number }
{
    Said {
        code,
        number,
        run: None,
    }
}

// An answer, its refusal by any number: one from elsewhere may be none of the 14 that `Refused` names.
pub fn say(reply: Result<Reply, u32>) -> Said
    ensures { result ≡ said_by reply }
{
    match reply {
        Err(number) => plain(0, number),
        Ok(Reply::Node(n)) => plain(1, n),
        Ok(Reply::Out) => plain(2, 0),
        Ok(Reply::On) => plain(3, 0),
        Ok(Reply::Wait(n, first, end)) => Said {
            code: 4,
            number: n,
            run: Some(SharedRun { first, end }),
        },
        Ok(Reply::Held) => plain(5, 0),
        Ok(Reply::Back) => plain(6, 0),
    }
}

impl From<Result<Reply, Refused>> for Said {
    ghost from_gives = { λ reply said. said ≡ said_of reply };

    fn from(reply: Result<Reply, Refused>) -> Said {
        say(reply.map_err(number))
    }
}

impl Said {
    // The answer that the numbers stand for, whoever made them: a wait with no run is one with 0 for both of its frames, and a code that is none of these
    // refuses.
    #[tactic(auto, using(crate::proofs::Codes::refused_other), unfolding(crate::specs::Codes::answer_by))]
    pub fn answer(self) -> Result<Reply, u32>
        ensures { answer_by (said_by result) ≡ answer_by self }
    {
        match self.code {
            1 => Ok(Reply::Node(self.number)),
            2 => Ok(Reply::Out),
            3 => Ok(Reply::On),
            4 => match self.run {
                Some(run) => Ok(Reply::Wait(self.number, run.first, run.end)),
                None => Ok(Reply::Wait(self.number, 0, 0)),
            },
            5 => Ok(Reply::Held),
            6 => Ok(Reply::Back),
            _ => Err(self.number),
        }
    }
}
