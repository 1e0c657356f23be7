// Why a line of a script is not done.
use console::hex::HexFault;
use pages::setup::SetupError;
use std::alloc::AllocError;
use std::io;
use terms::refusal::Refusal;
use thiserror::Error;

// What is wrong with a line, or why it cannot be done.
#[derive(Clone, Copy, PartialEq, Eq, Debug, Error)]
pub enum Fault {
    #[error("unknown command; there are: read, shield, cabin, lay, items, show")]
    UnknownCommand,
    // how the command is written
    #[error("write it as: {0}")]
    Usage(&'static str),
    #[error(transparent)]
    Hex(#[from] HexFault),
    #[error("no memory for this line")]
    NoMemory(#[from(alloc)] AllocError),
    #[error("this end is set up already")]
    SetUpAlready,
    #[error("no memory for the store")]
    NoStoreMemory,
    #[error("this end has no store; set it up first: END slot BYTES, or END paged PAGES")]
    NoStore,
}

// What ends a command before it is done.
#[derive(Debug, Drop, Error)]
pub enum Stop {
    #[error(transparent)]
    Fault(#[from] Fault),
    #[error(transparent)]
    Refused(#[from] Refusal),
    #[error(transparent)]
    Output(#[from] io::Error),
}

impl From<SetupError> for Stop {
    fn from(why: SetupError) -> Stop {
        match why {
            SetupError::Refused(why) => Stop::Refused(why),
            SetupError::NoMemory => Stop::Fault(Fault::NoStoreMemory),
        }
    }
}
