// The refusals, each with its number and its name.
ghost use Rattle.std.specs.Prelude.{◌≡◌, Some};
ghost use Rattle.answers.specs.Refusals.{number_of, name_of};

use std::fmt;

/// Why nothing was let in or written.
#[derive(Clone, Copy, Debug, PartialEq, Eq)]
pub enum Refusal {
    WorkTooShort = 1,
    OutOfBounds = 2,
    StoreOff = 3,
    BurstTooLong = 4,
    Framing = 5,
    OctetAlign = 6,
    FcsFail = 7,
    CborParse = 8,
    Indefinite = 9,
    NotDeterministic = 10,
    Schema = 11,
    ProfileMismatch = 12,
    SizeLimit = 13,
    ContextMismatch = 14,
    KidUnknown = 15,
    SignatureLength = 16,
    AuthFail = 17,
    Replay = 18,
    Expired = 19,
    ExpTooFar = 20,
    UnknownCommand = 21,
    BadArguments = 22,
    AllowlistDeny = 23,
    DuoPolicyUnknown = 24,
    NoRoom = 25,
    NotRaised = 26,
    MessageTooLong = 27,
    OutputTooShort = 28,
}

impl Refusal {
    /// The number that the rules give it.
    pub fn number(self) -> u8
        ensures { result ≡ number_of self }
    {
        self as u8
    }

    /// The name that an operator reads.
    pub fn name(self) -> &'static str
        ensures { result.now ≡ name_of self }
    {
        match self {
            Refusal::WorkTooShort => "WORK_TOO_SHORT",
            Refusal::OutOfBounds => "OUT_OF_BOUNDS",
            Refusal::StoreOff => "STORE_OFF",
            Refusal::BurstTooLong => "BURST_TOO_LONG",
            Refusal::Framing => "L2_FRAMING",
            Refusal::OctetAlign => "OCTET_ALIGN",
            Refusal::FcsFail => "FCS_FAIL",
            Refusal::CborParse => "CBOR_PARSE",
            Refusal::Indefinite => "INDEFINITE",
            Refusal::NotDeterministic => "NOT_DET",
            Refusal::Schema => "CBOR_PARSE",
            Refusal::ProfileMismatch => "PROFILE_MISMATCH",
            Refusal::SizeLimit => "SIZE_LIMIT",
            Refusal::ContextMismatch => "CTX_MISMATCH",
            Refusal::KidUnknown => "KID_UNKNOWN",
            Refusal::SignatureLength => "SIG_LEN",
            Refusal::AuthFail => "AUTH_FAIL",
            Refusal::Replay => "REPLAY",
            Refusal::Expired => "EXPIRED",
            Refusal::ExpTooFar => "EXP_TOO_FAR",
            Refusal::UnknownCommand => "UNKNOWN_CMD",
            Refusal::BadArguments => "BAD_ARGS",
            Refusal::AllowlistDeny => "ALLOWLIST_DENY",
            Refusal::DuoPolicyUnknown => "DUO_POLICY_UNKNOWN",
            Refusal::NoRoom => "NO_ROOM",
            Refusal::NotRaised => "NOT_RAISED",
            Refusal::MessageTooLong => "MESSAGE_TOO_LONG",
            Refusal::OutputTooShort => "OUTPUT_TOO_SHORT",
        }
    }
}

/// Writes the name.
impl fmt::Display for Refusal {
    ghost output = { λ refusal. Some (name_of refusal) };

    fn fmt<W: fmt::Write>(&self, f: &mut fmt::Formatter<W>) -> fmt::Result {
        f.write_str(self.name())
    }
}
