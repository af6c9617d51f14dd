// What becomes of a fetch on a line.
ghost use Rattle.std.specs.Prelude.{◌≡◌};
ghost use Rattle.line.specs.Fates.{read_mark};

/// What becomes of a fetch on a line.
#[derive(Clone, Copy, PartialEq, Eq, Debug)]
pub enum Fate {
    /// `p`: it passes.
    Pass,
    /// `q`: the request is lost, and nothing below is asked.
    LoseRequest,
    /// `r`: the reply is lost, after below was asked.
    LoseReply,
}

/// A byte that stands for no fate.
#[derive(Clone, Copy, PartialEq, Eq, Debug)]
pub struct UnknownMark(pub u8);

impl TryFrom<u8> for Fate {
    type Error = UnknownMark;

    ghost try_from_gives = { λ mark read. read ≡ read_mark mark };

    /// The fate that a mark stands for.
    fn try_from(mark: u8) -> Result<Fate, UnknownMark> {
        match mark {
            b'p' => Ok(Fate::Pass),
            b'q' => Ok(Fate::LoseRequest),
            b'r' => Ok(Fate::LoseReply),
            _ => Err(UnknownMark(mark)),
        }
    }
}
