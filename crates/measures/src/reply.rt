// What is answered, and the number and figure for it.
ghost use Rattle.std.specs.Prelude.{◌≡◌};
ghost use Rattle.measures.specs.Replies.{figures_of};

#[derive(Clone, Copy)]
pub enum WriteRefusal {
    ListsUnfit,
    TooManyDigits,
    NoRoom,
}

// How long the sheet is.
pub type WriteReply = Result<usize, WriteRefusal>;

// As C gets them: a number, 0 for an answer, and zeros where refused.
#[derive(Clone, Copy)]
pub struct WriteFigures {
    pub number: u64,
    pub length: usize,
}

impl From<WriteReply> for WriteFigures {
    ghost from_gives = { λ reply figures. figures ≡ figures_of reply };

    fn from(reply: WriteReply) -> WriteFigures {
        match reply {
            Ok(length) => WriteFigures { number: 0, length },
            Err(WriteRefusal::ListsUnfit) => WriteFigures {
                number: 8,
                length: 0,
            },
            Err(WriteRefusal::TooManyDigits) => WriteFigures {
                number: 9,
                length: 0,
            },
            Err(WriteRefusal::NoRoom) => WriteFigures {
                number: 10,
                length: 0,
            },
        }
    }
}
