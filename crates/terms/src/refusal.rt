// Why a call is sent away. Each case has one number, which logs, reports and programs show, and its words.
ghost use Rattle.std.specs.Prelude.{◌≡◌};
ghost use Rattle.terms.specs.Refusals.{number, error_code, NumberedBy};

use thiserror::Error;

#[derive(Clone, Copy, PartialEq, Eq, Debug, Error)]
pub enum Refusal {
    #[error("under two bytes, or opcode not 1 to 6")]
    UnknownOpcode = 1,
    #[error("bytes not of the opcode's shape")]
    Malformed = 2,
    // an item name that is not 1 to 32 bytes from 33 to 126
    #[error("item name not legal")]
    IllegalName = 3,
    #[error("mode not octet")]
    UnsupportedMode = 4,
    #[error("option name twice")]
    RepeatedOption = 5,
    // an operand out of range, a patience that is not legal, too little memory for a channel
    #[error("operand out of range")]
    OutOfRange = 6,
    #[error("DATA longer than the block size")]
    OversizedData = 7,
    // an OACK that does not fit what was asked
    #[error("OACK not accepted")]
    OptionsNotAccepted = 8,
    #[error("work buffer under 1472 bytes")]
    ShortBuffer = 9,
    #[error("nothing waiting on the channel")]
    NothingWaiting = 20,
    // no transfer at that place or TID
    #[error("no transfer there")]
    NoTransfer = 21,
    #[error("source is not the known peer")]
    WrongPeer = 22,
    #[error("of no use in the phase")]
    NotExpected = 23,
    #[error("four transfers stand")]
    PlacesFull = 24,
    // every TID of this end has been given
    #[error("TIDs spent")]
    TidsSpent = 25,
    #[error("no such item")]
    NoSuchItem = 26,
    #[error("name in use")]
    NameInUse = 27,
    #[error("no draft can be opened")]
    NoDraftFree = 28,
    #[error("piece not taken")]
    NotTaken = 29,
    #[error("more than 65535 blocks")]
    TooManyBlocks = 30,
    #[error("transfer not ended")]
    NotEnded = 31,
    #[error("a serving end does not ask")]
    ServingEnd = 33,
    #[error("source has a transfer standing here")]
    SourceBusy = 35,
    #[error("draft open already, or not open")]
    DraftState = 36,
}

impl Refusal {
    // A trait for this call and those of sides and causes is no plainer: no code is generic over them.
    pub fn number(self) -> u8
        ensures { result ≡ number self }
    {
        self as u8
    }

    // The code of the ERROR that goes to the source of a refused datagram, or none; an ERROR from a stranger gets none.
    pub fn error_code(self, to_error: bool) -> Option<u16>
        ensures { result ≡ error_code self to_error }
    {
        match self {
            Refusal::PlacesFull | Refusal::TidsSpent | Refusal::TooManyBlocks => Some(0),
            Refusal::NoSuchItem => Some(1),
            Refusal::IllegalName => Some(2),
            Refusal::NoDraftFree | Refusal::NotTaken | Refusal::DraftState => Some(3),
            Refusal::UnsupportedMode | Refusal::OversizedData => Some(4),
            Refusal::WrongPeer => if to_error { None } else { Some(5) },
            Refusal::NameInUse => Some(6),
            Refusal::RepeatedOption | Refusal::OptionsNotAccepted => Some(8),
            _ => None,
        }
    }
}

// The refusal of that number; a number that none has is out of range.
impl TryFrom<u8> for Refusal {
    type Error = Refusal;

    ghost try_from_gives = { NumberedBy number };

    fn try_from(n: u8) -> Result<Refusal, Refusal> {
        Ok(match n {
            1 => Refusal::UnknownOpcode,
            2 => Refusal::Malformed,
            3 => Refusal::IllegalName,
            4 => Refusal::UnsupportedMode,
            5 => Refusal::RepeatedOption,
            6 => Refusal::OutOfRange,
            7 => Refusal::OversizedData,
            8 => Refusal::OptionsNotAccepted,
            9 => Refusal::ShortBuffer,
            20 => Refusal::NothingWaiting,
            21 => Refusal::NoTransfer,
            22 => Refusal::WrongPeer,
            23 => Refusal::NotExpected,
            24 => Refusal::PlacesFull,
            25 => Refusal::TidsSpent,
            26 => Refusal::NoSuchItem,
            27 => Refusal::NameInUse,
            28 => Refusal::NoDraftFree,
            29 => Refusal::NotTaken,
            30 => Refusal::TooManyBlocks,
            31 => Refusal::NotEnded,
            33 => Refusal::ServingEnd,
            35 => Refusal::SourceBusy,
            36 => Refusal::DraftState,
            _ => return Err(Refusal::OutOfRange),
        })
    }
}
